//! The order of names.

ghost use Rattle.std.specs.Prelude.{map};
ghost use Rattle.tow_folder.specs.Folders.{name_shown};
ghost use Rattle.tow_page.specs.Answers.{AreOrdered};

use tow_folder::Name;
use tow_model::List;

/// The names in the order of their bytes, if no two are the same. Takes no memory.
pub(crate) fn in_order(names: List<Name>) -> List<Name>
    ensures { AreOrdered (map name_shown names) (map name_shown result) }
{
    let mut names = names.into_vec();
    names.sort_unstable_by(|a, b| a.text.as_slice().cmp(b.text.as_slice()));
    List::from_vec(names)
}
