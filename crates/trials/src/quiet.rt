ghost use Rattle.std.specs.Prelude.{◌≡◌, Ok, None};

use board::answer::Arrival;
use kit::running::Running;
use wire::cap::Cap;
use wire::fault::Fault;
use wire::order::Order;
use wire::row::Row;

/// A quiet delivery over a queue, a pool or any other row leaves the whole kit as it was.
pub fn deliver_over_row<O: Order>(
    kit: &mut Running<Row<O>>,
    pick: u16,
) -> Result<Option<Arrival>, Fault>
    ensures { result ≡ Ok None → kit.new ≡ kit.old }
{
    kit.deliver(pick)
}

/// So does one over a cap on such a row.
pub fn deliver_over_cap<O: Order>(
    kit: &mut Running<Cap<Row<O>>>,
    pick: u16,
) -> Result<Option<Arrival>, Fault>
    ensures { result ≡ Ok None → kit.new ≡ kit.old }
{
    kit.deliver(pick)
}
