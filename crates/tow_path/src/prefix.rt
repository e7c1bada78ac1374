//! Paths that lie under another.

ghost use Rattle.std.specs.Prelude.{◌≡◌, ◌⊎◌, ◌++◌, ◌∷◌, IsTrue};
ghost use Rattle.tow_model.specs.Paths as paths;
ghost use Rattle.tow_path.specs.Output.{LiesUnder};

/// Whether the path is the prefix, or begins with the prefix and a `/`. Takes no memory.
pub fn is_prefix(prefix: &[u8], path: &[u8]) -> bool
    ensures value { result ≡ paths.is_prefix prefix.now path.now }
    ensures whole { IsTrue result → LiesUnder prefix.now path.now }
{
    match path.strip_prefix(prefix) {
        Some(rest) => rest.is_empty() || rest.starts_with(b"/"),
        None => false,
    }
}
