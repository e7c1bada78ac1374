//! The answer to a head that is refused is put.

ghost use Rattle.std.specs.Prelude.{◌≡◌, ◌≤◌, ℕ, List, Option, drop, length};
ghost use Rattle.tow_model.specs.declared.statement.Statement.{Statement};
ghost use Rattle.tow_semantics.specs.Files.{Files};
ghost use Rattle.tow_states.specs.Known.{Setting};
ghost use Rattle.tow_turns.specs.Data.{base_of, stage_of};
ghost use Rattle.tow_turns.specs.Nexts.{StepFits};
ghost use Rattle.tow_turns.specs.Steps.{Leads};

use crate::base::Base;
use crate::stage::{Refusal, Stage, Then};
use tow_model::{Bytes, End, Role};
use tow_peer::Link;

/// Puts as much of the answer as there is room for; if all was put and written, the connection ends. Takes no memory.
pub fn refuse_on<L: Link>(base: &mut Base<L>, refusal: Refusal) -> (Stage, Then)
    ensures steps { (s : Setting) → Leads s (base_of L.shows base.old) (base_of L.shows base.new)
        (stage_of (Stage.Refusing refusal)) (stage_of result.0) }
    ensures fits { (role : Role) (tree : List Statement) (told : Option Files) (n n' : ℕ)
        → StepFits role tree told n n' (base_of L.shows base.old) (base_of L.shows base.new)
        (stage_of (Stage.Refusing refusal)) (stage_of result.0) result.1 }
{
    let Refusal { text, put } = refusal;
    let left = left_of(&text, put);
    if left.is_empty() && base.port.output.len() == 0 {
        return (Stage::Ended(End::Done), Then::On);
    }
    let count = base.port.output.put(left);
    let put = put + count;
    (Stage::Refusing(Refusal { text, put }), Then::Write)
}

/// What is left to be put of the text, of which so much is put.
fn left_of(text: &Bytes, put: usize) -> &[u8]
    requires within { put ≤ length text.now }
    ensures left { result.now ≡ drop put text.now }
{
    &text.as_slice()[put..]
}
