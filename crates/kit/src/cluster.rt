ghost use Rattle.std.specs.Prelude.{◌≡◌, MatchResult};
ghost use Rattle.wire.specs.Questions.{refusal, first_no};
ghost use Rattle.lone.specs.Sizes.{size_boards, size_pages};
ghost use Rattle.memory.specs.Kits.{start_kit};
ghost use Rattle.memory.specs.Placements.{placed};
ghost use Rattle.kit.specs.Clusters.{kit_of};
ghost use Rattle.kit.specs.KitQuestions.{place_questions};

use crate::node::Node;
use lone::size::Size;
use std::array::from_fn;
use wire::fault::Fault;

mod calls;

/// The boards of a kit and how many of them there are, with how many pages. The boards past that number stay as at the start.
#[derive(Drop)]
pub struct Cluster {
    size: Size,
    // Facts stand in `Size`: beside a ghost field here the checker lends no part of an element.
    nodes: [Node; 16],
}

impl Cluster {
    /// The boards of a kit as it starts.
    pub(crate) fn start(size: Size) -> Cluster
        ensures { kit_of result ≡ start_kit (size_boards size) (size_pages size) }
    {
        Cluster {
            size,
            nodes: from_fn(|number| Node::start(number as u8)),
        }
    }

    /// Writes a word at board 0.
    // An address and its word are a key and its value, and need no struct of their own.
    pub(crate) fn place(&mut self, address: u32, word: u32) -> Result<(), Fault>
        ensures refused { refusal result ≡ first_no (place_questions (kit_of self.old).pages address) }
        ensures placed { MatchResult result
            (λ _. kit_of self.new ≡ placed (kit_of self.old) address word)
            (λ _. self.new ≡ self.old) }
    {
        if !self.size.has_address(address) {
            return Err(Fault::NoSuchAddress);
        }
        self.nodes[0].put_word(address, word);
        Ok(())
    }
}
