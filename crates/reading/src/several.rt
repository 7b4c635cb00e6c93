// A list of pairs at once: for each pair what reading its cell answers, the relation, or 1000 and the number.
ghost use Rattle.std.specs.Prelude.{◌≡◌, ◌≤◌, length, IfOk};
ghost use Rattle.plane.specs.Lists.{stores};
ghost use Rattle.region.specs.Refusals.{number_in};
ghost use Rattle.calls.specs.Readings.{reading_of};
ghost use Rattle.calls.specs.Several.{pair_count, result_of, pair_result, several_number, several};

use crate::cell_of;
use region::refusals::Refusal;
use storage::table::Tables;

// What is added to the number of a refused reading, so that no relation of ours is taken for it.
const REFUSED_FROM: u16 = 1000;

// What is written of one pair.
fn pair_result(tables: &Tables, primary: u16, reference: u16) -> u16
    ensures { result ≡ result_of (reading_of tables.now.records.now tables.now.relations.now primary reference) }
{
    match cell_of(tables, primary, reference) {
        Ok(relation) => relation,
        Err(refusal) => REFUSED_FROM + u16::from(refusal),
    }
}

// The lists that are lent, or what refuses the call: 11, then 18, then 10.
fn check_several<'r, 'a>(
    records: &'r [u16],
    relations: &'a [u16],
    pairs: &[u16],
    results: &[u16],
) -> Result<Tables<'r, 'a>, Refusal>
    ensures refusal { number_in result ≡ several_number records.now relations.now pairs.now results.now }
    ensures tables { IfOk result (λ t. (t.records.now ≡ records.now) × (t.relations.now ≡ relations.now)) }
{
    let tables = Tables::of(records, relations)?;
    if pairs.len() % 2 == 1 {
        return Err(Refusal::PairsOdd);
    }
    if results.len() < pairs.len() / 2 {
        return Err(Refusal::BufferShort);
    }
    Ok(tables)
}

// One pair after another; a refused one is an answer like any other.
fn read_pairs(tables: &Tables, pairs: &[u16], results: &mut [u16])
    requires { pair_count pairs.now ≤ length results.old }
    ensures { results.new ≡ stores (λ k. k) (pair_result tables.now.records.now tables.now.relations.now pairs.now) (pair_count pairs.now) results.old }
{
    let count = pairs.len() / 2;
    for k in 0..count {
        let at = 2 * k;
        let next = at + 1;
        let primary = pairs[at];
        let reference = pairs[next];
        results[k] = pair_result(tables, primary, reference);
    }
}

// The cells of a list of pairs.
pub fn read_cells(
    records: &[u16],
    relations: &[u16],
    pairs: &[u16],
    results: &mut [u16],
) -> Result<(), Refusal>
    ensures value { number_in result ≡ several_number records.now relations.now pairs.now results.old }
    ensures results_after { results.new ≡ several records.now relations.now pairs.now results.old }
{
    let tables = check_several(records, relations, pairs, results)?;
    read_pairs(&tables, pairs, results);
    Ok(())
}
