//! Laws of the printed form, each the contract of a function without a body.

ghost use Rattle.std.specs.Prelude.{◌≡◌, ℕ, List, Ok};
ghost use Rattle.tow_model.specs.declared.attribute.Piece.{Piece};
ghost use Rattle.tow_language.specs.Laws.{PrintReadsBack};
ghost use Rattle.tow_language.specs.Templates.{template_of, spelled_template};

/// The printed spelling of a template that some text has reads back as the template.
pub fn templates_read_back()
    ensures { (text : List ℕ) (template : List Piece) → template_of text ≡ Ok template
        → template_of (spelled_template template) ≡ Ok template }
{}

/// The printed form of a tree that some text has, where it is at most 65,536 bytes long, is a text with that tree.
pub fn print_reads_back()
    ensures { PrintReadsBack }
{}
