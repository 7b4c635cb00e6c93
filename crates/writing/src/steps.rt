// A sheet's parcels as a card.
ghost use Rattle.std.specs.Prelude.{◌≡◌, not, ◌+◌, ◌*◌, ◌≤◌, ◌<◌, length};
ghost use Rattle.layout.specs.Sheet.{slots};
ghost use Rattle.layout.specs.Slots.{rings_in, empty_in, in_slot};
ghost use Rattle.endian.specs.Placed.{placed, word_bytes};
ghost use Rattle.card.specs.Layout.{most_card_parcels, most_card_rings, most_card_vertices, parcels_at};
ghost use Rattle.writing.specs.Write.{header_of, entry_bytes, card_of};
ghost use Rattle.writing.specs.Steps.{totals_of, entries_of, ends_of, vertices_of};

use crate::Totals;
use card::PARCELS_AT;
use endian::{LittleEndian, put_all};
use layout::lists::SLOTS;
use outline::last_end;
use storage::slots::Standing;

pub fn count_all(standing: &Standing) -> Totals
    ensures { result ≡ totals_of standing.now.records.now }
{
    let mut parcels: usize = 0;
    let mut rings: usize = 0;
    let mut vertices: usize = 0;
    for i in 0..SLOTS {
        parcels += usize::from(!standing.is_empty(i));
        rings += standing.ring_count(i);
        vertices += last_end(standing.ends(i));
    }
    Totals {
        parcels,
        rings,
        vertices,
    }
}

// The entry of a slot, and the place behind it.
fn put_entry(b: &mut [u8], at: usize, standing: &Standing, slot: usize) -> usize
    requires { (slot < slots) × (at + length (entry_bytes slot (not (empty_in standing.now.records.now slot)) (rings_in standing.now.records.now slot)) ≤ length b.old) }
    ensures value { result ≡ at + length (entry_bytes slot (not (empty_in standing.now.records.now slot)) (rings_in standing.now.records.now slot)) }
    ensures b_after { b.new ≡ placed b.old at (entry_bytes slot (not (empty_in standing.now.records.now slot)) (rings_in standing.now.records.now slot)) }
{
    let n = standing.ring_count(slot);
    if n == 0 {
        return at;
    }
    (slot as u16).put(b, at);
    (n as u16).put(b, at + 2);
    at + 4
}

fn put_entries(b: &mut [u8], from: usize, standing: &Standing) -> usize
    requires { from + length (entries_of standing.now.records.now) ≤ length b.old }
    ensures value { result ≡ from + length (entries_of standing.now.records.now) }
    ensures b_after { b.new ≡ placed b.old from (entries_of standing.now.records.now) }
{
    let mut at = from;
    for i in 0..SLOTS {
        at = put_entry(b, at, standing, i);
    }
    at
}

fn put_ends(b: &mut [u8], from: usize, standing: &Standing) -> usize
    requires { from + length (ends_of standing.now.records.now) ≤ length b.old }
    ensures value { result ≡ from + length (ends_of standing.now.records.now) }
    ensures b_after { b.new ≡ placed b.old from (ends_of standing.now.records.now) }
{
    let mut at = from;
    for i in 0..SLOTS {
        let ends = standing.ends(i);
        put_all(b, at, ends);
        at += 2 * ends.len();
    }
    at
}

fn put_vertices(b: &mut [u8], from: usize, standing: &Standing)
    requires { from + length (vertices_of standing.now.xs.now standing.now.records.now) ≤ length b.old }
    ensures { b.new ≡ placed b.old from (vertices_of standing.now.xs.now standing.now.records.now) }
{
    let mut at = from;
    for i in 0..SLOTS {
        let outline = standing.outline(i).coordinates;
        put_all(b, at, outline);
        at += 4 * outline.len();
    }
}

fn put_header(b: &mut [u8], t: Totals)
    requires { (t.parcels ≤ most_card_parcels) × (t.rings ≤ most_card_rings) × (t.vertices ≤ most_card_vertices) × (parcels_at ≤ length b.old) }
    ensures { b.new ≡ placed b.old 0 (word_bytes (header_of t.parcels t.rings t.vertices) 6) }
{
    let rings_at = PARCELS_AT + 4 * t.parcels;
    let vertices_at = rings_at + 2 * t.rings;
    let words = [
        t.parcels as u16,
        t.rings as u16,
        t.vertices as u16,
        PARCELS_AT as u16,
        rings_at as u16,
        vertices_at as u16,
    ];
    put_all(b, 0, &words);
}

// The card from the front of a buffer that is long enough.
pub fn put_card(b: &mut [u8], standing: &Standing, t: Totals)
    requires { (t ≡ totals_of standing.now.records.now) × (length (card_of (in_slot standing.now.xs.now standing.now.records.now)) ≤ length b.old) }
    ensures { b.new ≡ placed b.old 0 (card_of (in_slot standing.now.xs.now standing.now.records.now)) }
{
    put_header(b, t);
    let rings_at = put_entries(b, PARCELS_AT, standing);
    let vertices_at = put_ends(b, rings_at, standing);
    put_vertices(b, vertices_at, standing);
}
