// Steps inside the octants, word by word. `opened` and `reached` stay two parameters, since one is lent to read and the other to write.
ghost use Rattle.std.specs.Prelude.{true, ◌<◌};
ghost use Rattle.rows.specs.Rows.{lit, word_count, cells_end};
ghost use Rattle.rows.specs.Words.{WordOf};
ghost use Rattle.flood.specs.Flood.{Within, Added};
ghost use Rattle.flood.specs.inside.Turns.{near_up, Joined, Into, Turn};

use rows::{CellRows, CellWord, Rows};

// How often a word is gone over at most before the next one is.
const REPEATS: u32 = 64;

// The up cells in one word that have a down cell for a neighbour: at their own spot, one row back or one place back. It is not one function with
// `rows::with_next`, since each reads a row and a place on, or back, and the shifts are two functions.
fn near_up(word: CellWord, down: &Rows) -> u64
    ensures { WordOf result (near_up (lit down.now)) word.at }
{
    let at = word.at;
    let here = down[at];
    here | (down[at - 5] | rows::one_on(here, down[at - 1]))
}

// Sets those bits of a word that are near and open. Answers whether that changed it.
#[tactic(auto, using(crate::proofs::Joining::joined_told))]
pub(crate) fn join_word(at: usize, near: u64, opened: &Rows, words: &mut Rows) -> bool
    requires { at < word_count }
    ensures { Joined at near opened.now words.old words.new result }
{
    let last = words[at];
    let joined = last | opened[at] & near;
    words[at] = joined;
    joined != last
}

// Reaches the open cells of one word from their neighbours: the down cells, and then the up cells.
fn reach_word(word: CellWord, opened: &CellRows, reached: &mut CellRows) -> bool
    ensures { Turn (Into word.at) opened.now.up opened.now.down reached.old.up reached.old.down reached.new.up reached.new.down result }
{
    let downs = join_word(
        word.at,
        rows::with_next(&reached.up, word),
        &opened.down,
        &mut reached.down,
    );
    let ups = join_word(
        word.at,
        near_up(word, &reached.down),
        &opened.up,
        &mut reached.up,
    );
    downs | ups
}

// Reaches the open cells of one word until nothing changes, or often. A word whose open cells are all reached is passed.
fn settle_word(word: CellWord, opened: &CellRows, reached: &mut CellRows) -> bool
    ensures { Turn (Into word.at) opened.now.up opened.now.down reached.old.up reached.old.down reached.new.up reached.new.down result }
{
    let at = word.at;
    if reached.up[at] == opened.up[at] && reached.down[at] == opened.down[at] {
        return false;
    }
    if !reach_word(word, opened, reached) {
        return false;
    }
    for _ in 0..REPEATS {
        if !reach_word(word, opened, reached) {
            return true;
        }
    }
    true
}

// Goes over all words once, rising. Answers whether anything changed.
fn go_forward(opened: &CellRows, reached: &mut CellRows) -> bool
    ensures { Turn (Within cells_end) opened.now.up opened.now.down reached.old.up reached.old.down reached.new.up reached.new.down result }
{
    let mut changed = false;
    for at in rows::FIRST..rows::CELLS_END {
        changed |= settle_word(CellWord { at }, opened, reached);
    }
    changed
}

// Goes over all words once, falling. One function over words in any order would not know that all come, and could promise only `Added`.
#[tactic(auto, using(crate::proofs::Turns::added_more, crate::proofs::Turns::added_among, crate::proofs::Joining::into_within))]
fn go_back(opened: &CellRows, reached: &mut CellRows)
    ensures { Added (Within cells_end) opened.now.up opened.now.down reached.old.up reached.old.down reached.new.up reached.new.down }
{
    for at in (rows::FIRST..rows::CELLS_END).rev() {
        settle_word(CellWord { at }, opened, reached);
    }
}

// Goes over all words, rising, and where that changed anything falling too. Answers whether it did.
#[tactic(auto, using(crate::proofs::Turns::turn_more))]
pub(crate) fn sweep(opened: &CellRows, reached: &mut CellRows) -> bool
    ensures { Turn (Within cells_end) opened.now.up opened.now.down reached.old.up reached.old.down reached.new.up reached.new.down result }
{
    if go_forward(opened, reached) {
        go_back(opened, reached);
        return true;
    }
    false
}
