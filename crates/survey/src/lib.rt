// The subject's check, and where each of its nodes stands: its depth and the abstractions above it.
#![tactic(auto)]

ghost use Rattle.std.specs.Prelude.{◌≡◌, IsTrue, true, false, ◌<◌, ◌≤◌, length, take};
ghost use Rattle.documents.specs.Tables.{nodes};
ghost use Rattle.documents.specs.Numbers.{answered, subject_in};
ghost use Rattle.tables.specs.Answers.{sized, is_good, in_layout};
ghost use Rattle.tables.specs.Parts.{front};
ghost use Rattle.survey.specs.Places.{places_of, Surveyed, Unfit, goes_in, may_stand, whole_of, below, levels};

use documents::Refusal;
use tables::accept::{good, in_layout, is_shallow};
use tables::node::{
    ABSTRACTION, FIRST_METAVARIABLE, FIRST_SYMBOL, MOST_ARGUMENTS, MOST_DEPTH, PLAN_NODES,
};

// A level of the walk is one word: how many terms are owed there, times this, and the place of their roots.
// Kept (point 4): the walk adds and compares such words whole, which a type of two numbers would take apart and put together at each node.
pub const TERM: u32 = 65536;

// A level further in, and there an abstraction besides.
pub const DEEPER: u32 = 256;

pub const BOUND: u32 = 257;

// The root's level: one term at depth 1, with no abstraction above it.
pub const ROOT: u32 = 65792;

// Places from here on are those of depth 64.
pub const DEEPEST: u32 = 16384;

// The check of a subject. If it is accepted, the table of places has a word for each node; else it is working room.
pub fn survey(subject: &[u32], places: &mut [u32]) -> Result<usize, Refusal>
    requires { 4096 ≤ length places.old }
    ensures { Surveyed subject.now places.new result }
{
    if 2 * (PLAN_NODES as usize) < subject.len() {
        return Err(Refusal::TooManyWords);
    }
    lay::<false>(subject, places)
}

// The places alone, of a subject that is known to be accepted: the same walk, with nothing to ask of a node.
pub fn note(subject: &[u32], places: &mut [u32])
    requires { (subject_in subject.now ≡ answered (front subject.now)) × (4096 ≤ length places.old) }
    ensures { take (nodes (front subject.now)) places.new ≡ places_of 1 0 (front subject.now) }
{
    let _nodes = lay::<true>(subject, places);
}

// The rest of the check in one walk, which notes each node's place. Levels further out that still owe terms wait in an array, each with the place
// that its terms have, so that going back to one restores both its depth and its abstractions.
fn lay<const ACCEPTED: bool>(subject: &[u32], places: &mut [u32]) -> Result<usize, Refusal>
    requires short { length subject.now ≤ 8192 }
    requires room { 4096 ≤ length places.old }
    requires known { IsTrue ACCEPTED → subject_in subject.now ≡ answered (front subject.now) }
    ensures { Surveyed subject.now places.new result }
{
    // Kept (point 6): no heap; a stack of the most levels that may wait.
    let mut waiting = [0u32; MOST_DEPTH];
    let mut kept: usize = 0;
    let mut here = ROOT;
    for node in 0..subject.len() / 2 {
        let word = subject[2 * node];
        let count = subject[2 * node + 1];
        let place = here % TERM;
        places[node] = place;
        if !may_stand::<ACCEPTED>(word, count, place) {
            return Err(refusal_at(subject, word, count));
        }
        // Each way goes on by itself: where they meet at the loop's end, the compiler counts the nodes so that each takes two instructions more.
        if count == 0 {
            if 2 * TERM <= here {
                here -= TERM;
                continue;
            }
            if kept == 0 {
                return whole(subject.len(), node + 1);
            }
            kept -= 1;
            here = waiting[kept];
            continue;
        }
        waiting[kept] = here - TERM;
        kept = keep(kept, here);
        here = count * TERM + inside(place, word);
    }
    Err(Refusal::TableNotGood)
}

// Whether a subject may have such a node there. Of a subject that is known to be accepted that is not asked.
#[tactic(auto, unfolding(crate::specs::Places::may_stand))]
fn may_stand<const ACCEPTED: bool>(word: u32, count: u32, place: u32) -> bool
    requires { IsTrue ACCEPTED → may_stand word count place ≡ true }
    ensures { result ≡ may_stand word count place }
{
    if ACCEPTED {
        true
    } else if count == 0 {
        word < FIRST_METAVARIABLE
    } else {
        goes_in(word, count, place)
    }
}

// Whether a node with arguments is an abstraction or a symbol as 01's table of kinds has them, and not at depth 64.
#[tactic(auto, unfolding(crate::specs::Places::goes_in))]
fn goes_in(word: u32, count: u32, place: u32) -> bool
    ensures { result ≡ goes_in word count place }
{
    if DEEPEST <= place {
        false
    } else if word == ABSTRACTION {
        count == 1
    } else {
        FIRST_SYMBOL <= word && word < FIRST_METAVARIABLE && count <= MOST_ARGUMENTS
    }
}

// The answer when no term is owed any more: no word may be left. Half the words are compared, which the walk has at hand.
#[tactic(auto, unfolding(crate::specs::Places::whole_of))]
fn whole(words: usize, nodes: usize) -> Result<usize, Refusal>
    ensures { result ≡ whole_of words nodes }
{
    if words / 2 == nodes && words % 2 == 0 {
        Ok(nodes)
    } else {
        Err(Refusal::TableNotGood)
    }
}

// The levels that wait when a node's arguments are gone into: the node's own among them if it owes more than the node.
#[tactic(auto, unfolding(crate::specs::Places::levels))]
fn keep(kept: usize, here: u32) -> usize
    requires { kept < 64 }
    ensures { result ≡ levels kept here }
{
    if here < 2 * TERM { kept } else { kept + 1 }
}

// The place of a node's arguments.
#[tactic(auto, unfolding(crate::specs::Places::below))]
fn inside(place: u32, word: u32) -> u32
    requires { place < 16384 }
    ensures { result ≡ below place word }
{
    if word == ABSTRACTION {
        place + BOUND
    } else {
        place + DEEPER
    }
}

// The refusal of a subject with such a node, which is outside the layout, a metavariable or too deep: 1 comes before 3, and 3 before 4.
fn refusal_at(subject: &[u32], word: u32, count: u32) -> Refusal
    requires { (length subject.now ≤ 8192) × Unfit subject.now × (in_layout word count ≡ false → is_good subject.now ≡ false) }
    ensures { Err result ≡ sized (subject_in subject.now) }
{
    if !in_layout(word, count) || !good(subject) {
        Refusal::TableNotGood
    } else if is_shallow(subject) {
        Refusal::MetavariableInSubject
    } else {
        Refusal::TooDeep
    }
}
