ghost use Rattle.kit.specs.Clusters.{kit_of};
ghost use Rattle.kit.specs.Forms.{KitForm};

use crate::cluster::Cluster;
use crate::running::Running;
use lone::size::Size;
use wire::fault::Fault;
use wire::link::Link;

/// A kit that takes words to place, and is not yet started.
#[derive(Drop)]
pub struct Loading<L> {
    cluster: Cluster,
    link: L,
    ghost forms: { KitForm (kit_of cluster) },
}

impl<L: Link + Drop> Loading<L> {
    ghost use Rattle.std.specs.Prelude.{◌≡◌, [], IfOk};
    ghost use Rattle.wire.specs.Bags.{size};
    ghost use Rattle.wire.specs.Questions.{refusal, first_no};
    ghost use Rattle.memory.specs.Kits.{start_kit};
    ghost use Rattle.kit.specs.KitQuestions.{making_questions};
    ghost use Rattle.kit.specs.Loadings.{loading_kit, loading_link, LoadedWith};

    /// A kit of `boards` boards and `pages` pages over an empty link.
    pub fn new(link: L, boards: u8, pages: u32) -> Result<Loading<L>, Fault>
        ensures refused { refusal result ≡ first_no (making_questions boards pages (L.limit link) (size (L.waiting link))) }
        ensures made { IfOk result (λ k. (loading_kit k ≡ start_kit boards pages) × (loading_link k ≡ link) × LoadedWith L.Link.limit L.waiting boards pages [] k) }
    {
        let size = Size::new(boards, pages)?;
        if link.limit() < size.least_limit() {
            return Err(Fault::LimitTooLow);
        }
        if link.count() != 0 {
            return Err(Fault::LinkNotEmpty);
        }
        Ok(Loading {
            cluster: Cluster::start(size),
            link,
        })
    }
}

impl<L: Link> Loading<L> {
    ghost use Rattle.std.specs.Prelude.{◌≡◌, ℕ, List, [], ◌∷◌, IfOk, MatchResult};
    ghost use Rattle.wire.specs.Questions.{refusal, first_no};
    ghost use Rattle.memory.specs.Calls.{access_questions};
    ghost use Rattle.memory.specs.Placements.{placed};
    ghost use Rattle.memory.specs.Reached.{MayBegin};
    ghost use Rattle.memory.specs.declared.placement.Placement.{Placement};
    ghost use Rattle.kit.specs.Clusters.{over};
    ghost use Rattle.kit.specs.KitQuestions.{place_questions};
    ghost use Rattle.kit.specs.Loadings.{loading_kit, loading_link, LoadedWith};
    ghost use Rattle.kit.specs.Runs.{running_kit, running_link, opened_count, LeadsTo};

    /// Writes a word at board 0, which owns every page until the kit starts.
    // An address and its word are a key and its value, as in a map's `insert`: a struct of them would be taken apart at each call.
    pub fn place(&mut self, address: u32, word: u32) -> Result<(), Fault>
        ensures refused { refusal result ≡ first_no (place_questions (loading_kit self.old).pages address) }
        ensures placed { MatchResult result
            (λ _. (loading_kit self.new ≡ placed (loading_kit self.old) address word) × (loading_link self.new ≡ loading_link self.old))
            (λ _. self.new ≡ self.old) }
        ensures loaded { (boards pages : ℕ) (words : List Placement) → LoadedWith L.Link.limit L.waiting boards pages words self.old →
            IfOk result (λ _. LoadedWith L.Link.limit L.waiting boards pages (record { address = address; word = word } ∷ words) self.new) }
    {
        self.cluster.place(address, word)
    }

    /// What a load or a store is asked once the kit is started.
    pub fn ask_access(&self, board: u8, address: u32) -> Result<(), Fault>
        ensures { refusal result ≡ first_no (access_questions (over (loading_kit self.now) (L.limit (loading_link self.now)) (L.waiting (loading_link self.now))) board address) }
    {
        self.cluster.ask_access(board, address, &self.link)
    }

    /// Starts the kit, and uses up the loading one.
    pub fn start(self) -> Running<L>
        ensures kit { running_kit result ≡ loading_kit self }
        ensures link { running_link result ≡ loading_link self }
        ensures opened { opened_count result ≡ 0 }
        ensures begins { (boards pages : ℕ) (words : List Placement) → LoadedWith L.Link.limit L.waiting boards pages words self →
            MayBegin boards pages (L.limit (loading_link self)) words × LeadsTo L.Link.limit L.waiting boards pages (L.limit (loading_link self)) words [] result }
    {
        let Loading { cluster, link } = self;
        Running::new(cluster, link)
    }
}
