// Checkpoints, and members entered one by one.
ghost use Rattle.std.specs.Prelude.{◌≡◌, true, ◌+◌, ◌*◌, ◌/◌, ◌≤◌, ◌<◌, length};
ghost use Rattle.tables.specs.Layout.{write};
ghost use Rattle.tables.specs.Window.{held_of};
ghost use Rattle.ids.specs.Names.{ids_of};
ghost use Rattle.records.specs.Fill.{sum, borrow_fill};
ghost use Rattle.records.specs.Row.{borrow_at};
ghost use Rattle.records.specs.Decode.{bytes_in, ids_in, borrow_in, borrows_in};
ghost use Rattle.borrows.specs.Clone.{final_of};
ghost use Rattle.unite_groups.specs.Steps.{group_at, group_words, better_row, supplied_next, member_joined};
ghost use Rattle.unite_groups.specs.Chosen.{supplied_with, same_uuid, lesser};
ghost use Rattle.unite_groups.specs.Rows.{members_in, end_by, supply_at, supplies_in, better, member_entered, entered_from, borrow_member, borrow_members, owned_member};

use crate::group_rows::{enter_ids, group_at, group_spot, put_group};
use crate::{GroupRow, Grouped};
use ids::{Uuid, order};
use keys::{compare, part};
use records::{Place, borrow_at};
use shift::shift_words;
use std::cmp::Ordering;
use tables::{Window, held, ix};

fn same_uuid(a: Uuid, b: Uuid) -> bool
    ensures { result ≡ same_uuid a b }
{
    a.0 == b.0 && a.1 == b.1
}

fn lesser_of(a: Uuid, b: Uuid) -> Uuid
    ensures { result ≡ lesser a b }
{
    match order(b, a) {
        Ordering::Less => b,
        Ordering::Equal => a,
        Ordering::Greater => a,
    }
}

// The checkpoint of a group that `new` joins; `old` is the one chosen so far.
fn better_of(s: Option<Uuid>, old: Uuid, new: Uuid) -> Uuid
    ensures { result ≡ better s old new }
{
    match s {
        None => lesser_of(old, new),
        Some(u) => {
            if same_uuid(u, new) {
                return u;
            }
            if same_uuid(u, old) {
                return old;
            }
            lesser_of(old, new)
        }
    }
}

// The checkpoint of source `i`, if it has this path, else what was found before it.
fn supplied_at(
    supplies: &[u64],
    i: usize,
    pool: &[u8],
    path: Place,
    before: Option<Uuid>,
) -> Option<Uuid>
    requires { (i + 1) * 4 ≤ length supplies.now }
    ensures { result ≡ supplied_next (supply_at supplies.now pool.now i) (bytes_in pool.now path) before }
{
    let b = i * 4;
    let at = ix(supplies[b]);
    let len = ix(supplies[b + 1]);
    match compare(part(pool, at, len), part(pool, path.at, path.len)) {
        Ordering::Less => before,
        Ordering::Equal => Some(Uuid(supplies[b + 2], supplies[b + 3])),
        Ordering::Greater => before,
    }
}

// The checkpoint supplied with a path: that of its last source.
fn supplied_with(supplies: &[u64], n: usize, pool: &[u8], path: Place) -> Option<Uuid>
    requires { n * 4 ≤ length supplies.now }
    ensures { result ≡ supplied_with (supplies_in supplies.now pool.now n) (bytes_in pool.now path) }
{
    let mut s = None;
    for i in 0..n {
        s = supplied_at(supplies, i, pool, path, s);
    }
    s
}

// ---- members entered one by one

// One more joins group `i`.
fn join_group(groups: &mut [u64], i: usize, s: Option<Uuid>, u: Uuid)
    requires { (i + 1) * 6 ≤ length groups.old }
    ensures { groups.new ≡ write groups.old (i * 6) (group_words (better_row s u (group_at groups.old i))) }
{
    let h = group_at(groups, i);
    let checkpoint = better_of(s, h.checkpoint, u);
    let row = GroupRow {
        path: h.path,
        checkpoint,
        ids: h.ids,
    };
    put_group(row, groups, i);
}

// Enters a row whose ids stand behind those of all groups. Where it joins a group, they are given back.
fn enter_group(
    groups: &mut [u64],
    g: Grouped,
    work: &[u64],
    pool: &[u8],
    row: GroupRow,
    s: Option<Uuid>,
) -> Grouped
    requires first_value { row.ids.first ≡ g.ids }
    requires count_in_bounds { (g.ids + row.ids.count) * 2 ≤ length work.now }
    requires groups_value { end_by g.ids groups.old g.groups ≡ true }
    requires groups_in_bounds { (g.groups + 1) * 6 ≤ length groups.old }
    ensures groups_after { members_in groups.new work.now pool.now result.groups ≡ member_entered s (bytes_in pool.now row.path) (ids_in work.now row.ids) row.checkpoint (members_in groups.old work.now pool.now g.groups) }
    ensures groups_after_2 { end_by result.ids groups.new result.groups ≡ true }
    ensures groups_bound { result.groups ≤ g.groups + 1 }
    ensures ids_bound { result.ids ≤ g.ids + row.ids.count }
{
    let spot = group_spot(groups, g.groups, work, pool, row);
    if spot.held {
        let u = row.checkpoint;
        join_group(groups, spot.at, s, u);
        return g;
    }
    shift_words(groups, spot.at * 6, g.groups * 6, 6);
    put_group(row, groups, spot.at);
    Grouped {
        groups: g.groups + 1,
        ids: g.ids + row.ids.count,
    }
}

// Enters one member: a path, a checkpoint, and the ids of a window.
fn group_one(
    ids: &[u64],
    w: Window,
    path: Place,
    checkpoint: Uuid,
    pool: &[u8],
    supplies: &[u64],
    sources: usize,
    groups: &mut [u64],
    work: &mut [u64],
    g: Grouped,
) -> Grouped
    requires sources_in_bounds { sources * 4 ≤ length supplies.now }
    requires groups_value { end_by g.ids groups.old g.groups ≡ true }
    requires groups_in_bounds { (g.groups + 1) * 6 ≤ length groups.old }
    requires w_in_bounds { (g.ids + length (ids_in ids.now w)) * 2 ≤ length work.old }
    ensures groups_after { members_in groups.new work.new pool.now result.groups ≡ member_joined (supplies_in supplies.now pool.now sources) (members_in groups.old work.old pool.now g.groups) (record { path = bytes_in pool.now path; checkpoint = checkpoint; ids = ids_in ids.now w }) }
    ensures groups_after_2 { end_by result.ids groups.new result.groups ≡ true }
    ensures groups_bound { result.groups ≤ g.groups + 1 }
    ensures ids_bound { result.ids ≤ g.ids + length (ids_in ids.now w) }
    ensures groups_len_unchanged { length groups.new ≡ length groups.old }
    ensures work_len_unchanged { length work.new ≡ length work.old }
{
    let count = enter_ids(ids, w, work, g.ids);
    let s = supplied_with(supplies, sources, pool, path);
    let row = GroupRow {
        path,
        checkpoint,
        ids: Window {
            first: g.ids,
            count,
        },
    };
    enter_group(groups, g, work, pool, row, s)
}

fn final_of(f: Option<Uuid>) -> Uuid
    ensures { result ≡ final_of f }
{
    f.unwrap_or(Uuid(0, 0))
}

// Enters borrow `i` of a table.
fn group_borrow(
    borrows: &[u64],
    i: usize,
    ids: &[u64],
    pool: &[u8],
    supplies: &[u64],
    sources: usize,
    groups: &mut [u64],
    work: &mut [u64],
    g: Grouped,
) -> Grouped
    requires i_in_bounds { i < length borrows.now / 9 }
    requires sources_in_bounds { sources * 4 ≤ length supplies.now }
    requires groups_value { end_by g.ids groups.old g.groups ≡ true }
    requires groups_in_bounds { (g.groups + 1) * 6 ≤ length groups.old }
    requires i_in_bounds_2 { (g.ids + length (borrow_in ids.now pool.now (borrow_at borrows.now i)).ids) * 2 ≤ length work.old }
    ensures groups_after { members_in groups.new work.new pool.now result.groups ≡ member_joined (supplies_in supplies.now pool.now sources) (members_in groups.old work.old pool.now g.groups) (borrow_member (borrow_in ids.now pool.now (borrow_at borrows.now i))) }
    ensures groups_after_2 { end_by result.ids groups.new result.groups ≡ true }
    ensures groups_bound { result.groups ≤ g.groups + 1 }
    ensures ids_bound { result.ids ≤ g.ids + length (borrow_in ids.now pool.now (borrow_at borrows.now i)).ids }
    ensures groups_len_unchanged { length groups.new ≡ length groups.old }
    ensures work_len_unchanged { length work.new ≡ length work.old }
{
    let b = borrow_at(borrows, i);
    let u = final_of(b.fin);
    group_one(
        ids, b.ids, b.path, u, pool, supplies, sources, groups, work, g,
    )
}

// Enters the borrows of a window, each with its final checkpoint.
// inner
pub fn group_borrows(
    borrows: &[u64],
    w: Window,
    ids: &[u64],
    pool: &[u8],
    supplies: &[u64],
    sources: usize,
    groups: &mut [u64],
    work: &mut [u64],
    g: Grouped,
) -> Grouped
    requires sources_in_bounds { sources * 4 ≤ length supplies.now }
    requires groups_value { end_by g.ids groups.old g.groups ≡ true }
    requires borrows_in_bounds { (g.groups + held_of w (length borrows.now / 9)) * 6 ≤ length groups.old }
    requires w_in_bounds { (g.ids + (sum borrow_fill (borrows_in borrows.now ids.now pool.now w)).ids) * 2 ≤ length work.old }
    ensures groups_after { members_in groups.new work.new pool.now result.groups ≡ entered_from (supplies_in supplies.now pool.now sources) (members_in groups.old work.old pool.now g.groups) (borrow_members (borrows_in borrows.now ids.now pool.now w)) }
    ensures groups_after_2 { end_by result.ids groups.new result.groups ≡ true }
    ensures groups_bound { result.groups ≤ g.groups + held_of w (length borrows.now / 9) }
    ensures ids_bound { result.ids ≤ g.ids + (sum borrow_fill (borrows_in borrows.now ids.now pool.now w)).ids }
    ensures groups_len_unchanged { length groups.new ≡ length groups.old }
    ensures work_len_unchanged { length work.new ≡ length work.old }
{
    let n = held(w, borrows.len() / 9);
    let mut to = g;
    for k in 0..n {
        let i = w.first + k;
        to = group_borrow(borrows, i, ids, pool, supplies, sources, groups, work, to);
    }
    to
}

// Enters a source's own ids, if there are any: `owned` lists them, two words each, repeats kept.
// inner
pub fn group_owned(
    owned: &[u64],
    path: Place,
    checkpoint: Uuid,
    pool: &[u8],
    supplies: &[u64],
    sources: usize,
    groups: &mut [u64],
    work: &mut [u64],
    g: Grouped,
) -> Grouped
    requires sources_in_bounds { sources * 4 ≤ length supplies.now }
    requires groups_value { end_by g.ids groups.old g.groups ≡ true }
    requires groups_in_bounds { (g.groups + 1) * 6 ≤ length groups.old }
    requires owned_in_bounds { (g.ids + length (ids_of owned.now)) * 2 ≤ length work.old }
    ensures groups_after { members_in groups.new work.new pool.now result.groups ≡ entered_from (supplies_in supplies.now pool.now sources) (members_in groups.old work.old pool.now g.groups) (owned_member (bytes_in pool.now path) checkpoint (ids_of owned.now)) }
    ensures groups_after_2 { end_by result.ids groups.new result.groups ≡ true }
    ensures groups_bound { result.groups ≤ g.groups + 1 }
    ensures ids_bound { result.ids ≤ g.ids + length (ids_of owned.now) }
    ensures groups_len_unchanged { length groups.new ≡ length groups.old }
    ensures work_len_unchanged { length work.new ≡ length work.old }
{
    if owned.len() < 2 {
        return g;
    }
    let w = Window {
        first: 0,
        count: owned.len() / 2,
    };
    group_one(
        owned, w, path, checkpoint, pool, supplies, sources, groups, work, g,
    )
}
