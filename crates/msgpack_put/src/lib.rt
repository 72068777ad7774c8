// MessagePack, written: shortest forms into a lent slice. Every writer asks for the room that it fills, stores its bytes
// at a place, and answers the place after them; `head_len` says how many bytes `put_head` fills.
#![tactic(auto)]

ghost use Rattle.std.specs.Prelude.{◌≡◌, ◌+◌, ◌≤◌, ◌<◌, length, take, drop};
ghost use Rattle.std.proofs.lemmas.List.Edits.{sets};
ghost use Rattle.keys.specs.BigEndian.{be_bytes};
ghost use Rattle.msgpack_put.specs.Sign.{sign_of};
ghost use Rattle.msgpack_put.specs.Write.{uint_bytes, minus_bytes, array_bytes, bin_head, head_bytes, bin_bytes, id_part, tagged_bytes, Put};

// A nil, a flag, a number that is not negative, minus one minus a number (below 2^63, as `sign_of` makes them: what is read from 2^63 on
// is another number); or what stands before the elements of an array or the bytes of a bin, by how many they are.
#[derive(Clone, Copy)]
pub enum Head {
    Nil,
    Flag(bool),
    Uint(u64),
    Minus(u64),
    Array(u64),
    Bin(u64),
}

// The head of a signed number.
pub fn sign_of(x: i64) -> Head
    ensures { result ≡ sign_of x }
{
    if x < 0 {
        Head::Minus((-1 - x) as u64)
    } else {
        Head::Uint(x as u64)
    }
}

// ---- the shortest form; each kind has first bytes and limits of its own, and one form over a table of them would be no plainer

// A first byte, the width of the number after it, and that number.
#[derive(Clone, Copy)]
struct Tagged(u8, usize, u64);

#[tactic(auto, using(std::proofs::lemmas::Bool::Decides::nat_tests), unfolding(crate::specs::Write::uint_bytes, keys::specs::BigEndian::be_bytes))]
fn uint_form(x: u64) -> Tagged
    ensures { (uint_bytes x ≡ tagged_bytes result) × (result.1 ≤ 8) }
{
    if x < 0x80 {
        return Tagged(x as u8, 0, x);
    }
    if x < 0x100 {
        return Tagged(0xcc, 1, x);
    }
    if x < 0x1_0000 {
        return Tagged(0xcd, 2, x);
    }
    if x < 0x1_0000_0000 {
        return Tagged(0xce, 4, x);
    }
    Tagged(0xcf, 8, x)
}

fn minus_form(m: u64) -> Tagged
    ensures { (minus_bytes m ≡ tagged_bytes result) × (result.1 ≤ 8) }
{
    if m < 0x20 {
        return Tagged(0xff - m as u8, 0, m);
    }
    if m < 0x80 {
        return Tagged(0xd0, 1, 0xff - m);
    }
    if m < 0x8000 {
        return Tagged(0xd1, 2, 0xffff - m);
    }
    if m < 0x8000_0000 {
        return Tagged(0xd2, 4, 0xffff_ffff - m);
    }
    Tagged(0xd3, 8, 0xffff_ffff_ffff_ffff - m)
}

fn array_form(n: u64) -> Tagged
    ensures { (array_bytes n ≡ tagged_bytes result) × (result.1 ≤ 8) }
{
    if n < 0x10 {
        return Tagged(0x90 + n as u8, 0, n);
    }
    if n < 0x1_0000 {
        return Tagged(0xdc, 2, n);
    }
    Tagged(0xdd, 4, n)
}

fn bin_form(n: u64) -> Tagged
    ensures { (bin_head n ≡ tagged_bytes result) × (result.1 ≤ 8) }
{
    if n < 0x100 {
        return Tagged(0xc4, 1, n);
    }
    if n < 0x1_0000 {
        return Tagged(0xc5, 2, n);
    }
    Tagged(0xc6, 4, n)
}

// The shortest form of what a head stands for.
#[tactic(auto, unfolding(keys::specs::BigEndian::be_bytes))]
#[inline(always)]
fn form(h: Head) -> Tagged
    ensures { (head_bytes h ≡ tagged_bytes result) × (result.1 ≤ 8) }
{
    match h {
        Head::Nil => Tagged(0xc0, 0, 0),
        Head::Flag(false) => Tagged(0xc2, 0, 0),
        Head::Flag(true) => Tagged(0xc3, 0, 0),
        Head::Uint(x) => uint_form(x),
        Head::Minus(m) => minus_form(m),
        Head::Array(n) => array_form(n),
        Head::Bin(n) => bin_form(n),
    }
}

// How many bytes `put_head` writes.
#[inline(always)]
pub fn head_len(h: Head) -> usize
    ensures { result ≡ length (head_bytes h) }
{
    let t = form(h);
    1 + t.1
}

// ---- storing

// The n low bytes of x at `at`, the most significant first.
fn put_number(out: &mut [u8], at: usize, n: usize, x: u64)
    requires { at + n ≤ length out.old }
    ensures { out.new ≡ sets out.old at (be_bytes n x) }
{
    let mut y = x;
    for i in (0..n).rev() {
        out[at + i] = (y % 256) as u8;
        y /= 256;
    }
}

fn put_tagged(out: &mut [u8], at: usize, t: Tagged) -> usize
    requires { at + 1 + t.1 ≤ length out.old }
    ensures { Put out.old at (tagged_bytes t) result out.new }
{
    let n = t.1;
    out[at] = t.0;
    put_number(out, at + 1, n, t.2);
    at + 1 + n
}

// inner
#[inline(always)]
pub fn put_head(out: &mut [u8], at: usize, h: Head) -> usize
    requires { at + length (head_bytes h) ≤ length out.old }
    ensures { Put out.old at (head_bytes h) result out.new }
{
    let t = form(h);
    put_tagged(out, at, t)
}

fn put_part(out: &mut [u8], at: usize, pool: &[u8], from: usize, n: usize)
    requires { (at + n ≤ length out.old) × (from + n ≤ length pool.now) }
    ensures { out.new ≡ sets out.old at (take n (drop from pool.now)) }
{
    for i in 0..n {
        out[at + i] = pool[from + i];
    }
}

// A bin of the n bytes of the pool from `from` on.
// inner
pub fn put_bin(out: &mut [u8], at: usize, pool: &[u8], from: usize, n: usize) -> usize
    requires { (at + length (bin_bytes (take n (drop from pool.now))) ≤ length out.old) × (from + n ≤ length pool.now) }
    ensures { Put out.old at (bin_bytes (take n (drop from pool.now))) result out.new }
{
    let p = put_head(out, at, Head::Bin(n as u64));
    put_part(out, p, pool, from, n);
    p + n
}

// A bin of 16 bytes: an id by its halves.
// inner
pub fn put_id(out: &mut [u8], at: usize, hi: u64, lo: u64) -> usize
    requires { at + length (id_part hi lo) ≤ length out.old }
    ensures { Put out.old at (id_part hi lo) result out.new }
{
    let p = put_head(out, at, Head::Bin(16));
    put_number(out, p, 8, hi);
    put_number(out, p + 8, 8, lo);
    p + 16
}
