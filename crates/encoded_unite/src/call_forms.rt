// The form of the call and the working memory.
ghost use Rattle.std.specs.Prelude.{◌≡◌, true, false, ◌||◌, ◌+◌, ◌-◌, ◌*◌, ◌/◌, ltb};
ghost use Rattle.records.specs.Fill.{bytes, fits};
ghost use Rattle.unite_judge.specs.Judging.{most_sources};
ghost use Rattle.manifest_rows.specs.Stored.{lent};
ghost use Rattle.encoded_union.specs.Union.{behind, call_over};
ghost use Rattle.encoded_united.specs.Lists.{own_short};
ghost use Rattle.encoded_unite.specs.Steps.{tables_short, rest_short};

use encoded_union::some_bad;
use encoded_united::{GROUPS, OWNED, PREFIXES};
use manifest_read::LONGEST;
use measure::fits_in;
use records::{Fill, Limits};
use unite_judge::work_short;

// Whether the call is none: too many sources, not as many paths or checkpoints, or a part that is none or too long.
pub fn call_over(
    lim: Limits,
    s: &[u8],
    ends: &[u64],
    paths: &[u8],
    path_ends: &[u64],
    checkpoints: &[u64],
) -> bool
    ensures { result ≡ call_over lim s.now ends.now paths.now path_ends.now checkpoints.now }
{
    let n = ends.len();
    if 8 < n || path_ends.len() != n || checkpoints.len() != n * 2 {
        return true;
    }
    some_bad(LONGEST, s.len(), ends, n) || some_bad(lim.path, paths.len(), path_ends, n)
}

// ---- the working memory

// Whether tables with so many places have room for any eight manifests within L1, behind `n` bytes.
fn has_all(most: Fill, n: usize, all: Fill) -> bool
    ensures { result ≡ fits (behind most (bytes n) most_sources) all }
{
    if all.bytes < n {
        return false;
    }
    let each = Fill {
        segments: all.segments / 8,
        views: all.views / 8,
        runs: all.runs / 8,
        borrows: all.borrows / 8,
        ids: all.ids / 8,
        bytes: (all.bytes - n) / 8,
    };
    fits_in(most, each)
}

// Whether a list of `lent` words is too short for those given and for a UUID for each borrow within L1.
fn lacks_fresh(lim: Limits, given: usize, lent: usize) -> bool
    ensures { result ≡ ltb lent (given + lim.fill.borrows * 2) }
{
    lent < given || (lent - given) / 2 < lim.fill.borrows
}

// Whether tables of so many words are too short: those that each source is read into for some manifest within L1, or those that hold all for
// some eight behind `n` bytes of paths.
fn lacks_tables(
    lim: Limits,
    n: usize,
    segments: usize,
    views: usize,
    runs: usize,
    borrows: usize,
    ids: usize,
    all_segments: usize,
    all_views: usize,
    all_runs: usize,
    all_borrows: usize,
    all_ids: usize,
    all_pool: usize,
) -> bool
    ensures { result ≡ tables_short lim n (record { segments = segments / 12; views = views / 16; runs = runs / 3; borrows = borrows / 9; ids = ids / 2; bytes = lim.fill.bytes }) (record { segments = all_segments / 12; views = all_views / 16; runs = all_runs / 3; borrows = all_borrows / 9; ids = all_ids / 2; bytes = all_pool }) }
{
    let work = Fill {
        segments: segments / 12,
        views: views / 16,
        runs: runs / 3,
        borrows: borrows / 9,
        ids: ids / 2,
        bytes: lim.fill.bytes,
    };
    let all = Fill {
        segments: all_segments / 12,
        views: all_views / 16,
        runs: all_runs / 3,
        borrows: all_borrows / 9,
        ids: all_ids / 2,
        bytes: all_pool,
    };
    !fits_in(lim.fill, work) || !has_all(lim.fill, n, all)
}

// Whether the list of UUIDs, of which `given` words were lent, the tables of the result or the union's own working memory are too short.
fn lacks_rest(
    lim: Limits,
    given: usize,
    lent: usize,
    sets: usize,
    segments: usize,
    views: usize,
    runs: usize,
    borrows: usize,
    ids: usize,
    to_pool: usize,
) -> bool
    ensures { result ≡ rest_short lim given lent (record { segments = segments / 12; views = views / 16; runs = runs / 3; borrows = borrows / 9; ids = ids / 2; bytes = to_pool }) (own_short lim sets) }
{
    let to = Fill {
        segments: segments / 12,
        views: views / 16,
        runs: runs / 3,
        borrows: borrows / 9,
        ids: ids / 2,
        bytes: to_pool,
    };
    if lacks_fresh(lim, given, lent) || !fits_in(lim.fill, to) {
        return true;
    }
    work_short(lim, PREFIXES, OWNED, GROUPS, sets)
}

// Whether any of it is too short: the result has the tables that each source is read into, and a pool of its own.
pub fn lacks_room(
    lim: Limits,
    n: usize,
    given: usize,
    lent: usize,
    sets: usize,
    segments: usize,
    views: usize,
    runs: usize,
    borrows: usize,
    ids: usize,
    all_segments: usize,
    all_views: usize,
    all_runs: usize,
    all_borrows: usize,
    all_ids: usize,
    all_pool: usize,
    to_pool: usize,
) -> bool
    ensures { result ≡ (tables_short lim n (record { segments = segments / 12; views = views / 16; runs = runs / 3; borrows = borrows / 9; ids = ids / 2; bytes = lim.fill.bytes }) (record { segments = all_segments / 12; views = all_views / 16; runs = all_runs / 3; borrows = all_borrows / 9; ids = all_ids / 2; bytes = all_pool }) || rest_short lim given lent (record { segments = segments / 12; views = views / 16; runs = runs / 3; borrows = borrows / 9; ids = ids / 2; bytes = to_pool }) (own_short lim sets)) }
{
    lacks_tables(
        lim,
        n,
        segments,
        views,
        runs,
        borrows,
        ids,
        all_segments,
        all_views,
        all_runs,
        all_borrows,
        all_ids,
        all_pool,
    ) || lacks_rest(
        lim, given, lent, sets, segments, views, runs, borrows, ids, to_pool,
    )
}
