ghost use Rattle.std.specs.Prelude.{◌≡◌, [], length, IfOk, Some};
ghost use Rattle.wire.specs.Links.{largest_limit};
ghost use Rattle.wire.specs.Questions.{refusal, first_no};
ghost use Rattle.memory.specs.Kits.{start_kit};
ghost use Rattle.kit.specs.KitQuestions.{making_questions};
ghost use Rattle.kit.specs.Loadings.{loading_kit, loading_link};
ghost use Rattle.script.specs.Benches.{Ready, Starts};
ghost use Rattle.script.specs.NamedLinks.{kind_of, limit_of, row_of};
ghost use Rattle.script.specs.Plays.{run_questions};
ghost use Rattle.script.specs.Records.{form};
ghost use Rattle.script.specs.Turns.{Turns};
ghost use Rattle.script.specs.declared.call.Call.TheVariants as asked;

use crate::answer::Answer;
use crate::bench::Bench;
use crate::call::{Call, KitPlan};
use crate::named_link::NamedLink;
use crate::record::read_call;
use kit::loading::Loading;
use memory::call::Call as KitCall;
use std::mem::replace;
use wire::fault::Fault;
use wire::link::LARGEST_LIMIT;

/// The kit of a plan over an empty link of the largest limit.
fn make_kit(plan: KitPlan) -> Result<Loading<NamedLink>, Fault>
    ensures refused { refusal result ≡ first_no (making_questions plan.boards plan.pages largest_limit 0) }
    ensures made { IfOk result (λ k. (loading_kit k ≡ start_kit plan.boards plan.pages)
        × (kind_of (loading_link k) ≡ plan.link) × (limit_of (loading_link k) ≡ largest_limit)
        × (row_of (loading_link k) ≡ [])) }
{
    let link = NamedLink::new(plan.link, LARGEST_LIMIT)?;
    Loading::new(link, plan.boards, plan.pages)
}

/// K makes a kit, where none is made.
fn make(bench: &mut Bench, plan: KitPlan) -> Result<Answer, Fault>
    requires { Ready bench.old }
    ensures { Turns (Some (asked.Kit plan)) bench.old result bench.new }
{
    let Bench::NoKit = bench else {
        return Err(Fault::OutOfPlace);
    };
    *bench = Bench::Loading(make_kit(plan)?);
    Ok(Answer::Made(plan))
}

/// P places a word, until the kit starts.
fn place(bench: &mut Bench, address: u32, word: u32) -> Result<Answer, Fault>
    requires { Ready bench.old }
    ensures { Turns (Some (asked.Place address word)) bench.old result bench.new }
{
    let Bench::Loading(kit) = bench else {
        return Err(Fault::OutOfPlace);
    };
    kit.place(address, word)?;
    Ok(Answer::Placed { address, word })
}

/// What the call that starts a kit is asked before.
fn ask_first(kit: &Loading<NamedLink>, call: KitCall) -> Result<(), Fault>
    requires limit { limit_of (loading_link kit.now) ≡ largest_limit }
    requires empty { length (row_of (loading_link kit.now)) ≡ 0 }
    ensures { refusal result ≡ first_no (run_questions (loading_kit kit.now) call) }
{
    match call {
        KitCall::Load { board, address } | KitCall::Store { board, address, .. } => {
            kit.ask_access(board, address)
        }
        KitCall::Deliver { .. } => Ok(()),
    }
}

/// Starts the kit that is loading.
#[tactic(auto, using(crate::proofs::Turns::starts_kit))]
fn start(bench: &mut Bench)
    requires { Ready bench.old }
    ensures { Starts bench.old bench.new }
{
    *bench = match replace(bench, Bench::NoKit) {
        Bench::Loading(kit) => Bench::Running(kit.start()),
        other => other,
    };
}

/// L, S and D are calls on the running kit, and the first that is not refused starts it.
fn run(bench: &mut Bench, call: KitCall) -> Result<Answer, Fault>
    requires { Ready bench.old }
    ensures { Turns (Some (asked.Run call)) bench.old result bench.new }
{
    if let Bench::Loading(kit) = bench {
        ask_first(kit, call)?;
        start(bench);
    }
    let Bench::Running(kit) = bench else {
        return Err(Fault::OutOfPlace);
    };
    let answer = kit.call(call)?;
    Ok(Answer::Ran { call, answer })
}

/// Carries out a record. A refusal changes nothing.
pub(crate) fn turn(bench: &mut Bench, text: &[u8]) -> Result<Answer, Fault>
    requires { Ready bench.old }
    ensures { Turns (form text.now) bench.old result bench.new }
{
    match read_call(text)? {
        Call::Kit(plan) => make(bench, plan),
        Call::Place { address, word } => place(bench, address, word),
        Call::Run(call) => run(bench, call),
    }
}
