// The borrows of a union's used sources: whether each has a final checkpoint, and all of them grouped. The used sources stand in order in
// rows of seven words, the first the word at which the source's own row begins.
#![tactic(auto)]

ghost use Rattle.std.specs.Prelude.{◌≡◌, true, [], ◌+◌, ◌*◌, ◌≤◌, length, take};
ghost use Rattle.tables.specs.Layout.{write, joined};
ghost use Rattle.ids.specs.Names.{ids_of};
ghost use Rattle.records.specs.Row.{at, place_at};
ghost use Rattle.records.specs.Decode.{manifest_in, lent_of};
ghost use Rattle.borrows.specs.Owned.{owned_of};
ghost use Rattle.lawful.specs.Judge.{judged_of};
ghost use Rattle.unite_groups.specs.Rows.{members_in, end_by, supplies_in, entered_from};
ghost use Rattle.unite_sources.specs.Rows.{manifest_at_word, source_at_word, begins};
ghost use Rattle.unite_judge.specs.Judging.{most_sources};
ghost use Rattle.unite_lend.specs.Used.{some_below, lacks_at, segmented_at, supply_words, own_members, source_members, members_at, sound_at, sound_below};

use borrows::{lacks_final, own_all};
use ids::Uuid;
use records::{Limits, Place, Tables, place_at};
use tables::{held, ix, put};
use unite_groups::{Grouped, group_borrows, group_owned};
use unite_judge::source_manifest;
use unite_sources::{window_in, word_at};

// ---- 15, 13

fn lacks_at(sources: &[u64], order: &[u64], i: usize, borrows: &[u64]) -> bool
    requires { (i + 1) * 7 ≤ length order.now }
    ensures { result ≡ lacks_at borrows.now sources.now order.now i }
{
    let b = ix(order[i * 7]);
    let w = window_in(sources, b, 16);
    lacks_final(borrows, w)
}

// Whether some borrow of the first `n` used sources has no final checkpoint.
// inner
pub fn used_lack_final(sources: &[u64], order: &[u64], n: usize, borrows: &[u64]) -> bool
    requires { n * 7 ≤ length order.now }
    ensures { result ≡ some_below (lacks_at borrows.now sources.now order.now) n }
{
    for i in 0..n {
        if lacks_at(sources, order, i, borrows) {
            return true;
        }
    }
    false
}

fn segmented_at(sources: &[u64], order: &[u64], i: usize, segments: &[u64]) -> bool
    requires { (i + 1) * 7 ≤ length order.now }
    ensures { result ≡ segmented_at segments.now sources.now order.now i }
{
    let b = ix(order[i * 7]);
    let w = window_in(sources, b, 10);
    let n = held(w, segments.len() / 12);
    0 < n
}

// Whether one of the first `n` used sources has segments.
// inner
pub fn used_segmented(sources: &[u64], order: &[u64], n: usize, segments: &[u64]) -> bool
    requires { n * 7 ≤ length order.now }
    ensures { result ≡ some_below (segmented_at segments.now sources.now order.now) n }
{
    for i in 0..n {
        if segmented_at(sources, order, i, segments) {
            return true;
        }
    }
    false
}

// ---- paths and checkpoints

fn put_supply(sources: &[u64], order: &[u64], i: usize, supplies: &mut [u64])
    requires i_in_bounds { (i + 1) * 7 ≤ length order.now }
    requires i_in_bounds_2 { (i + 1) * 4 ≤ length supplies.old }
    ensures { supplies.new ≡ write supplies.old (i * 4) (supply_words sources.now (at order.now (i * 7))) }
{
    let b = ix(order[i * 7]);
    let row = [
        word_at(sources, b, 18),
        word_at(sources, b, 19),
        word_at(sources, b, 20),
        word_at(sources, b, 21),
    ];
    put(&row, supplies, i * 4);
}

// Puts the path and the checkpoint of each of the first `n` used sources.
// inner
pub fn put_supplies(sources: &[u64], order: &[u64], n: usize, supplies: &mut [u64])
    requires n_in_bounds { n * 7 ≤ length order.now }
    requires n_in_bounds_2 { n * 4 ≤ length supplies.old }
    ensures { supplies.new ≡ write supplies.old 0 (joined (supply_words sources.now) (begins order.now n)) }
{
    for i in 0..n {
        put_supply(sources, order, i, supplies);
    }
}

// ---- members, grouped

// The first `n` ids of a list.
fn front_ids(t: &[u64], n: usize) -> &[u64]
    requires { n * 2 ≤ length t.now }
    ensures { result.now ≡ take (n * 2) t.now }
{
    &t[0..n * 2]
}

fn path_of(sources: &[u64], b: usize) -> Place
    requires { b + 22 ≤ length sources.now }
    ensures { result ≡ place_at sources.now (b + 18) }
{
    place_at(sources, b + 18)
}

fn checkpoint_of(sources: &[u64], b: usize) -> Uuid
    ensures { result ≡ (at sources.now (b + 20), at sources.now (b + 21)) }
{
    let hi = word_at(sources, b, 20);
    let lo = word_at(sources, b, 21);
    Uuid(hi, lo)
}

// Lists the own ids of the source whose row begins at word `b`. It answers how many there are.
fn list_owned(lim: Limits, sources: &[u64], b: usize, tables: Tables, owned: &mut [u64]) -> usize
    requires b_in_bounds { b + 22 ≤ length sources.now }
    requires b_value { judged_of lim (lent_of tables) (manifest_at_word sources.now b) ≡ Ok tt }
    requires views_in_bounds { lim.fill.views * 2 ≤ length owned.old }
    ensures owned_after { ids_of (take (result * 2) owned.new) ≡ owned_of (manifest_in (lent_of tables.entry) (manifest_at_word sources.now b)) }
    ensures result_in_bounds { result * 2 ≤ length owned.new }
    ensures owned_len_bound { length (ids_of (take (result * 2) owned.new)) ≤ lim.fill.views }
    ensures owned_len_unchanged { length owned.new ≡ length owned.old }
{
    let m = source_manifest(sources, b);
    own_all(
        tables.segments,
        tables.views,
        tables.runs,
        tables.borrows,
        tables.ids,
        m,
        owned,
        0,
    )
}

// Enters the own ids of the source whose row begins at word `b`. `owned` is working memory.
fn group_own(
    lim: Limits,
    sources: &[u64],
    b: usize,
    tables: Tables,
    supplies: &[u64],
    n: usize,
    owned: &mut [u64],
    groups: &mut [u64],
    work: &mut [u64],
    g: Grouped,
) -> Grouped
    requires b_in_bounds { b + 22 ≤ length sources.now }
    requires b_value { judged_of lim (lent_of tables) (manifest_at_word sources.now b) ≡ Ok tt }
    requires n_in_bounds { n * 4 ≤ length supplies.now }
    requires views_in_bounds { lim.fill.views * 2 ≤ length owned.old }
    requires groups_value { end_by g.ids groups.old g.groups ≡ true }
    requires groups_in_bounds { (g.groups + 1) * 6 ≤ length groups.old }
    requires views_in_bounds_2 { (g.ids + lim.fill.views) * 2 ≤ length work.old }
    ensures groups_after { members_in groups.new work.new tables.entry.pool.now result.groups ≡ entered_from (supplies_in supplies.now tables.entry.pool.now n) (members_in groups.old work.old tables.entry.pool.now g.groups) (own_members (source_at_word (lent_of tables.entry) sources.now b)) }
    ensures groups_after_2 { end_by result.ids groups.new result.groups ≡ true }
    ensures groups_bound { result.groups ≤ g.groups + 1 }
    ensures ids_bound { result.ids ≤ g.ids + lim.fill.views }
    ensures groups_len_unchanged { length groups.new ≡ length groups.old }
    ensures work_len_unchanged { length work.new ≡ length work.old }
    ensures owned_len_unchanged { length owned.new ≡ length owned.old }
{
    let e = list_owned(lim, sources, b, tables, owned);
    let path = path_of(sources, b);
    let u = checkpoint_of(sources, b);
    let own = front_ids(owned, e);
    group_owned(own, path, u, tables.pool, supplies, n, groups, work, g)
}

// Enters the members of the source whose row begins at word `b`: its borrows, then its own ids.
fn group_source(
    lim: Limits,
    sources: &[u64],
    b: usize,
    tables: Tables,
    supplies: &[u64],
    n: usize,
    owned: &mut [u64],
    groups: &mut [u64],
    work: &mut [u64],
    g: Grouped,
) -> Grouped
    requires b_in_bounds { b + 22 ≤ length sources.now }
    requires b_value { judged_of lim (lent_of tables) (manifest_at_word sources.now b) ≡ Ok tt }
    requires n_in_bounds { n * 4 ≤ length supplies.now }
    requires views_in_bounds { lim.fill.views * 2 ≤ length owned.old }
    requires groups_value { end_by g.ids groups.old g.groups ≡ true }
    requires borrows_in_bounds { (g.groups + (lim.fill.borrows + 1)) * 6 ≤ length groups.old }
    requires views_in_bounds_2 { (g.ids + (lim.fill.ids + lim.fill.views)) * 2 ≤ length work.old }
    ensures groups_after { members_in groups.new work.new tables.entry.pool.now result.groups ≡ entered_from (supplies_in supplies.now tables.entry.pool.now n) (members_in groups.old work.old tables.entry.pool.now g.groups) (source_members (source_at_word (lent_of tables.entry) sources.now b)) }
    ensures groups_after_2 { end_by result.ids groups.new result.groups ≡ true }
    ensures groups_bound { result.groups ≤ g.groups + (lim.fill.borrows + 1) }
    ensures ids_bound { result.ids ≤ g.ids + (lim.fill.ids + lim.fill.views) }
    ensures groups_len_unchanged { length groups.new ≡ length groups.old }
    ensures work_len_unchanged { length work.new ≡ length work.old }
    ensures owned_len_unchanged { length owned.new ≡ length owned.old }
{
    let w = window_in(sources, b, 16);
    let h = group_borrows(
        tables.borrows,
        w,
        tables.ids,
        tables.pool,
        supplies,
        n,
        groups,
        work,
        g,
    );
    group_own(lim, sources, b, tables, supplies, n, owned, groups, work, h)
}

// The same for the used source in row `i`.
fn group_at(
    lim: Limits,
    sources: &[u64],
    order: &[u64],
    i: usize,
    tables: Tables,
    supplies: &[u64],
    n: usize,
    owned: &mut [u64],
    groups: &mut [u64],
    work: &mut [u64],
    g: Grouped,
) -> Grouped
    requires i_in_bounds { (i + 1) * 7 ≤ length order.now }
    requires i_value { sound_at lim (lent_of tables) sources.now (at order.now (i * 7)) ≡ true }
    requires n_in_bounds { n * 4 ≤ length supplies.now }
    requires views_in_bounds { lim.fill.views * 2 ≤ length owned.old }
    requires groups_value { end_by g.ids groups.old g.groups ≡ true }
    requires borrows_in_bounds { (g.groups + (lim.fill.borrows + 1)) * 6 ≤ length groups.old }
    requires views_in_bounds_2 { (g.ids + (lim.fill.ids + lim.fill.views)) * 2 ≤ length work.old }
    ensures groups_after { members_in groups.new work.new tables.entry.pool.now result.groups ≡ entered_from (supplies_in supplies.now tables.entry.pool.now n) (members_in groups.old work.old tables.entry.pool.now g.groups) (source_members (source_at_word (lent_of tables.entry) sources.now (at order.now (i * 7)))) }
    ensures groups_after_2 { end_by result.ids groups.new result.groups ≡ true }
    ensures groups_bound { result.groups ≤ g.groups + (lim.fill.borrows + 1) }
    ensures ids_bound { result.ids ≤ g.ids + (lim.fill.ids + lim.fill.views) }
    ensures groups_len_unchanged { length groups.new ≡ length groups.old }
    ensures work_len_unchanged { length work.new ≡ length work.old }
    ensures owned_len_unchanged { length owned.new ≡ length owned.old }
{
    let b = ix(order[i * 7]);
    group_source(lim, sources, b, tables, supplies, n, owned, groups, work, g)
}

// The members of the first `n` used sources, grouped from nothing. It answers how many groups there are.
// inner
pub fn group_sources(
    lim: Limits,
    sources: &[u64],
    order: &[u64],
    n: usize,
    tables: Tables,
    supplies: &[u64],
    owned: &mut [u64],
    groups: &mut [u64],
    work: &mut [u64],
) -> usize
    requires n_le_most_sources { n ≤ most_sources }
    requires n_in_bounds { n * 7 ≤ length order.now }
    requires n_value { sound_below lim (lent_of tables) sources.now order.now n ≡ true }
    requires n_in_bounds_2 { n * 4 ≤ length supplies.now }
    requires views_in_bounds { lim.fill.views * 2 ≤ length owned.old }
    requires borrows_in_bounds { most_sources * (lim.fill.borrows + 1) * 6 ≤ length groups.old }
    requires views_in_bounds_2 { most_sources * (lim.fill.ids + lim.fill.views) * 2 ≤ length work.old }
    ensures result_after { members_in groups.new work.new tables.entry.pool.now result ≡ entered_from (supplies_in supplies.now tables.entry.pool.now n) [] (members_at (lent_of tables.entry) sources.now order.now n) }
    ensures result_in_bounds { result * 6 ≤ length groups.new }
{
    let mut g = Grouped { groups: 0, ids: 0 };
    for i in 0..n {
        g = group_at(
            lim, sources, order, i, tables, supplies, n, owned, groups, work, g,
        );
    }
    g.groups
}
