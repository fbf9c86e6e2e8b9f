// The walk over the settings, from the highest down: keep before give up, so that the ways out come rising, with nothing to sort.
#![tactic(auto)]

mod ways;

ghost use Rattle.std.specs.Prelude.{◌≡◌, ◌+◌, ◌-◌, ◌^◌, ◌<◌, length, take};
ghost use Rattle.setups.specs.Code.SetupOf.{setup_of};
ghost use Rattle.walk.specs.Walking.{KeepsHighest, GivesUpHighest, Reached, Witnessed, Enters, Walked};

use numbers::Setting;
use question::question;
use sets::{Set, has, with};
use setups::TakenSetup;
pub use ways::WaysOut;

// A node of the walk: the settings above the first `left` are decided, those of `kept` kept and those of `given` given up.
#[derive(Clone, Copy)]
pub struct Node {
    pub left: u32,
    pub given: Set,
    pub kept: Set,
}

// A live node: its branch has a way out. The witness is what some model makes true that meets what the node asks.
#[derive(Clone, Copy)]
pub struct Live {
    pub node: Node,
    pub witness: Set,
}

impl Node {
    // The node below, where the highest setting left is kept.
    fn keep(self) -> Node
        requires { 0 < self.left }
        ensures { KeepsHighest self result }
    {
        Node {
            left: self.left - 1,
            kept: with(self.kept, Setting(self.left)),
            ..self
        }
    }

    // The node below, where it is given up.
    fn give_up(self) -> Node
        requires { 0 < self.left }
        ensures { GivesUpHighest self result }
    {
        Node {
            left: self.left - 1,
            given: with(self.given, Setting(self.left)),
            ..self
        }
    }
}

// The question before a node is entered: its answer is the witness of the live node, and where there is none, the branch holds no way out.
pub fn enter(taken: &TakenSetup, node: Node, found: &[Set]) -> Option<Live>
    requires { Reached (setup_of taken.now) node found.now }
    ensures { Enters (setup_of taken.now) node.left node.given found.now result }
{
    let witness = question(taken, node.kept, node.given, found)?;
    Some(Live { node, witness })
}

// Keeping the highest setting left. Where the witness has it, the same model serves and no question is asked.
fn keeping(taken: &TakenSetup, live: Live, found: &[Set]) -> Option<Live>
    requires witnessed { Witnessed (setup_of taken.now) live found.now }
    requires left_nonzero { 0 < live.node.left }
    ensures { Enters (setup_of taken.now) (live.node.left - 1) live.node.given found.now result }
{
    let kept = live.node.keep();
    if has(live.witness, Setting(live.node.left)) {
        return Some(Live { node: kept, ..live });
    }
    enter(taken, kept, found)
}

// Puts the ways out of a live node's branch behind those found, until the places are full. A setting is given up only where
// keeping it leaves no way out, or where the question with it given up is answered: that a witness breaks it says nothing.
pub fn walk(taken: &TakenSetup, live: Live, ways: &mut WaysOut)
    requires witnessed { Witnessed (setup_of taken.now) live (take ways.old.filled ways.old.places.now) }
    requires room { ways.old.filled < length ways.old.places.now }
    ensures same_places { ways.new.places.ghost_name ≡ ways.old.places.ghost_name }
    ensures walked { let top = live.node.given + 2 ^ live.node.left in
        Walked (setup_of taken.now) top ways.old.places.now ways.new.places.now ways.new.filled }
{
    let node = live.node;
    if node.left == 0 {
        ways.push(node.given);
        return;
    }
    let given_up = node.give_up();
    let Some(kept) = keeping(taken, live, ways.found()) else {
        // No way out keeps the setting, so that the same model bears witness here.
        walk(
            taken,
            Live {
                node: given_up,
                ..live
            },
            ways,
        );
        return;
    };
    walk(taken, kept, ways);
    if ways.is_full() {
        return;
    }
    if let Some(entered) = enter(taken, given_up, ways.found()) {
        walk(taken, entered, ways);
    }
}
