// The answers of find (document 02, L1; the unit's 1 to 6, 3 for the bound, 8, 18 and 17).
ghost use Rattle.rules.specs.Promises.{FindPromise};
ghost use Rattle.finder.specs.Drafts.{Given, Bounded, Reduced, Drafted};

use crate::order::first_fault;
use crate::writing::write_draft;
use finder_access::{measure_cover, no_entries, no_places, reach_states, unreached};
use finder_distances::{find_distances, no_distances};
use finder_separators::{find_separators, place_room, separators_size};
use finder_spelling::text_room;
use finder_telling::lowest_untold;
use finder_unit::GoldenUnit;
use reader::{UnitShape, bound_in_range, read_unit};
use rules::{Fault, File, Found, Refusal};

// What a dossier has around its table and its words, more than a unit has: the byte for m and three counts.
const MORE_THAN_A_UNIT: usize = 7;

// The dossier with the words that were found, if there is room for it.
fn find_room(
    unit: &[u8],
    x: UnitShape,
    bound: u8,
    queue: &[u16],
    places: &[u8],
    text: &[u8],
    kept: &[u16],
    count: usize,
    out: &mut [u8],
) -> Found
    requires { Drafted unit.now x bound queue.now places.now text.now kept.now count }
    ensures { FindPromise unit.now bound out.old result out.new }
{
    let cover = measure_cover(queue, places, x.states);
    let separating = separators_size(text, kept, count);
    let size = unit.len() + MORE_THAN_A_UNIT + cover + separating;
    if out.len() < size {
        return Found::Refused(Refusal::NoRoom(size));
    }
    write_draft(unit, x, bound, queue, places, text, kept, count, out);
    Found::Written(size)
}

// The words of a unit that none of 1 to 18 refuses.
fn find_words(
    golden: &GoldenUnit<'_>,
    bound: u8,
    queue: &[u16],
    places: &[u8],
    distances: &[u8],
    out: &mut [u8],
) -> Found
    requires { Reduced golden.now.bytes.now golden.now.shape bound queue.now places.now distances.now }
    ensures { FindPromise golden.now.bytes.now bound out.old result out.new }
{
    let mut text = text_room();
    let mut kept = place_room();
    let count = find_separators(golden, distances, &mut text, &mut kept);
    find_room(
        golden.bytes,
        golden.shape,
        bound,
        queue,
        places,
        &text,
        &kept,
        count,
        out,
    )
}

// Of a unit and a bound that are good: which states can be reached, and which can be told apart.
fn find_bounded(unit: &[u8], x: UnitShape, bound: u8, out: &mut [u8]) -> Found
    requires { Bounded unit.now x bound }
    ensures { FindPromise unit.now bound out.old result out.new }
{
    let golden = GoldenUnit {
        bytes: unit,
        shape: x,
    };
    let mut queue = no_entries();
    let mut places = no_places();
    let mut distances = no_distances();
    reach_states(&golden, &mut queue, &mut places);
    find_distances(&golden, &mut distances);
    let state = unreached(&places, x.states);
    let pair = lowest_untold(&distances, x.states);
    match first_fault(state, pair) {
        Ok(()) => find_words(&golden, bound, &queue, &places, &distances, out),
        Err(r) => Found::Refused(r),
    }
}

// Of a unit that reads well.
fn find_given(unit: &[u8], x: UnitShape, bound: u8, out: &mut [u8]) -> Found
    requires { Given unit.now x }
    ensures { FindPromise unit.now bound out.old result out.new }
{
    if !bound_in_range(x.states, bound) {
        return Found::Refused(Refusal::Malformed(Fault::BadNumbers, File::Number, 0));
    }
    find_bounded(unit, x, bound, out)
}

pub fn find(unit: &[u8], bound: u8, out: &mut [u8]) -> Found
    ensures { FindPromise unit.now bound out.old result out.new }
{
    match read_unit(unit) {
        Ok(x) => find_given(unit, x, bound, out),
        Err(r) => Found::Refused(r),
    }
}
