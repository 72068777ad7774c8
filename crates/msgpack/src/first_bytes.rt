// Numbers, first bytes and heads.
ghost use Rattle.std.specs.Prelude.{◌≡◌, ◌+◌, ◌^◌, ◌≤◌, ◌<◌, length, take, drop, leb};
ghost use Rattle.keys.specs.BigEndian.{be};
ghost use Rattle.keys.specs.Pick.{pick};
ghost use Rattle.msgpack.specs.Form.{form_of};
ghost use Rattle.msgpack.specs.Head.{arg_of, head_of};

use crate::{Form, Head, Kind};

fn wide(b: u8) -> u64
    ensures { (result ≡ b) × (result < 256) }
{
    b as u64
}

// The number of the n bytes at `at`, the most significant first.
pub fn number(s: &[u8], at: usize, n: usize) -> u64
    requires { (at + n ≤ length s.now) × (n ≤ 8) }
    ensures { (result ≡ be (take n (drop at s.now))) × (result < 256 ^ n) }
{
    let mut x: u64 = 0;
    for i in 0..n {
        x = x * 256 + wide(s[at + i]);
    }
    x
}

// ---- first bytes and heads

// The one decision over the first byte.
pub fn form_of(b: u8) -> Form
    ensures { result ≡ form_of b }
{
    match b {
        0x00..=0x7f => Form(Kind::Uint, 0, b as u64),
        0x80..=0x8f => Form(Kind::Map, 0, b as u64 - 0x80),
        0x90..=0x9f => Form(Kind::Array, 0, b as u64 - 0x90),
        0xa0..=0xbf => Form(Kind::Str, 0, b as u64 - 0xa0),
        0xc0 => Form(Kind::Nil, 0, 0),
        0xc1 => Form(Kind::Never, 0, 0),
        0xc2 => Form(Kind::False, 0, 0),
        0xc3 => Form(Kind::True, 0, 0),
        0xc4 => Form(Kind::Bin, 1, 0),
        0xc5 => Form(Kind::Bin, 2, 0),
        0xc6 => Form(Kind::Bin, 4, 0),
        0xc7 => Form(Kind::Ext, 1, 0),
        0xc8 => Form(Kind::Ext, 2, 0),
        0xc9 => Form(Kind::Ext, 4, 0),
        0xca => Form(Kind::Float, 0, 4),
        0xcb => Form(Kind::Float, 0, 8),
        0xcc => Form(Kind::Uint, 1, 0),
        0xcd => Form(Kind::Uint, 2, 0),
        0xce => Form(Kind::Uint, 4, 0),
        0xcf => Form(Kind::Uint, 8, 0),
        0xd0 => Form(Kind::Sint, 1, 0xff),
        0xd1 => Form(Kind::Sint, 2, 0xffff),
        0xd2 => Form(Kind::Sint, 4, 0xffff_ffff),
        0xd3 => Form(Kind::Sint, 8, 0xffff_ffff_ffff_ffff),
        0xd4 => Form(Kind::Ext, 0, 1),
        0xd5 => Form(Kind::Ext, 0, 2),
        0xd6 => Form(Kind::Ext, 0, 4),
        0xd7 => Form(Kind::Ext, 0, 8),
        0xd8 => Form(Kind::Ext, 0, 16),
        0xd9 => Form(Kind::Str, 1, 0),
        0xda => Form(Kind::Str, 2, 0),
        0xdb => Form(Kind::Str, 4, 0),
        0xdc => Form(Kind::Array, 2, 0),
        0xdd => Form(Kind::Array, 4, 0),
        0xde => Form(Kind::Map, 2, 0),
        0xdf => Form(Kind::Map, 4, 0),
        0xe0..=0xff => Form(Kind::Minus, 0, 0xff - b as u64),
    }
}

fn argument(s: &[u8], from: usize, w: usize, n: u64) -> u64
    requires { (from + w ≤ length s.now) × (w ≤ 8) }
    ensures { (result ≡ arg_of w n (drop from s.now)) × (0 < w → result < 256 ^ w) }
{
    if w == 0 { n } else { number(s, from, w) }
}

// A value that ends len bytes on, if they are left.
fn body(next: usize, len: usize, left: usize) -> Head
    requires { next + left < 2 ^ 64 }
    ensures { result ≡ pick (leb len left) (Head.Other (next + len)) Head.Cut }
{
    if len <= left {
        Head::Other(next + len)
    } else {
        Head::Cut
    }
}

pub fn head_at(s: &[u8], at: usize) -> Head
    ensures { result ≡ head_of at (drop at s.now) }
{
    if s.len() <= at {
        return Head::Cut;
    }
    let f = form_of(s[at]);
    let w = f.1;
    let n = f.2;
    let from = at + 1;
    if s.len() - from < w {
        return Head::Cut;
    }
    let x = argument(s, from, w, n);
    let next = from + w;
    let left = s.len() - next;
    let k = f.0;
    match k {
        Kind::Never => Head::Never,
        Kind::Nil => Head::Nil(next),
        Kind::False => Head::Flag(false, next),
        Kind::True => Head::Flag(true, next),
        Kind::Uint => Head::Uint(x, next),
        Kind::Minus => Head::Minus(x, next),
        Kind::Sint => {
            if x <= n / 2 {
                Head::Uint(x, next)
            } else {
                Head::Minus(n - x, next)
            }
        }
        Kind::Bin => {
            let len = x as usize;
            if len <= left {
                Head::Bin(next, len, next + len)
            } else {
                Head::Cut
            }
        }
        Kind::Str => body(next, x as usize, left),
        Kind::Float => body(next, x as usize, left),
        Kind::Ext => {
            let len = x as usize;
            if len < left {
                Head::Other(next + 1 + len)
            } else {
                Head::Cut
            }
        }
        Kind::Array => Head::Array(x, next),
        Kind::Map => Head::Map(x, next),
    }
}
