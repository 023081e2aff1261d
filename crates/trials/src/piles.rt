ghost use Rattle.std.specs.Prelude.{◌≡◌, IfSome, Ok, MatchResult};
ghost use Rattle.wire.specs.Bags.{◌&◌};

use wire::cap::Cap;
use wire::fault::Fault;
use wire::link::Link;
use wire::message::Message;
use wire::pool::Pool;

/// Posts a message on any link, and takes one.
pub fn exchange<L: Link>(
    link: &mut L,
    message: Message,
    pick: u16,
) -> Result<Option<Message>, Fault>
    ensures exchanged { MatchResult result
        (λ taken. IfSome taken (λ m. message & L.waiting link.old ≡ m & L.waiting link.new))
        (λ _. link.new ≡ link.old) }
    ensures limit { L.limit link.new ≡ L.limit link.old }
{
    link.post(message)?;
    Ok(link.take(pick))
}

/// Two caps piled on a pool, through the same generic code: the limit is the smallest.
pub fn piled(message: Message, pick: u16) -> Result<u16, Fault>
    ensures { result ≡ Ok 3 }
{
    let mut link = Cap::new(Cap::new(Pool::new(9)?, 3)?, 5)?;
    let _ = exchange(&mut link, message, pick);
    Ok(link.limit())
}
