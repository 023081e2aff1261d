ghost use Rattle.std.specs.Prelude.{◌≡◌, Ok};
ghost use Rattle.board.specs.declared.answer.AccessAnswer.TheVariants.{Answered};

use board::answer::AccessAnswer;
use kit::loading::Loading;
use wire::fault::Fault;
use wire::queue::Queue;

/// A word that is placed is the word that a load brings once the kit is started.
pub fn placed_word(word: u32) -> Result<AccessAnswer, Fault>
    ensures { result ≡ Ok (Answered word) }
{
    let mut loading = Loading::new(Queue::new(17)?, 1, 1)?;
    loading.place(0, word)?;
    let mut kit = loading.start();
    kit.load(0, 0)
}
