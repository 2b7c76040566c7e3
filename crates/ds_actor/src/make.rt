//! Makes one turn on the words.

ghost use Rattle.std.specs.Prelude.{◌≡◌, ◌≤◌, false, length};
ghost use Rattle.ds_map.specs.Words.{words as words_of};
ghost use Rattle.ds_step.specs.Word.{words_after, answer_on};
ghost use Rattle.ds_plain.specs.Table.{op_at, is_over};
ghost use Rattle.ds_plain.specs.Thread.{Thread, moved};
ghost use Rattle.ds_code.specs.CodeProgram.{program_of};
ghost use Rattle.ds_actor.specs.Actors.{IsAt, IsSame, turn_at};

use crate::actor::Actor;
use crate::outcome::Turn;
use ds_code::Code;
use ds_step::Words;

/// One turn of an actor: it makes its next step on the words, and goes on by the answer up to the step behind.
///
/// The code copies no more values together than the code for which the actor was made, and there are as many words as
/// the actor's limits say.
pub fn turn<W: Words>(code: &Code, actor: &mut Actor, words: &mut W) -> Turn
    requires goes_on { is_over actor.old.position ≡ false }
    requires row { code.now.row ≤ actor.old.thread.row }
    requires whole { length (W.held words.old) ≡ words_of actor.old.thread.lim }
    ensures stands { (a : Thread) → IsAt code.now actor.old a
        → IsAt code.now actor.new (moved (program_of actor.old.thread.lim code.now) actor.old.thread.lim
        actor.old.thread.number a
        (answer_on (W.held words.old) (op_at actor.old.thread.lim actor.old.thread.number actor.old.position))) }
    ensures same { IsSame actor.old.thread actor.new.thread }
    ensures turn { result ≡ turn_at actor.old.thread.lim actor.old.thread.number actor.old.position
        (answer_on (W.held words.old) (op_at actor.old.thread.lim actor.old.thread.number actor.old.position)) }
    ensures words { W.held words.new ≡ words_after (W.held words.old)
        (op_at actor.old.thread.lim actor.old.thread.number actor.old.position) }
{
    let op = actor.op();
    let old = words.apply(op);
    actor.answer(code, old)
}
