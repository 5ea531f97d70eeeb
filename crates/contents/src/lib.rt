// The contents page of a file: its sections, and what a page may get wrong. specs/Contents.antt has the layout.
// Each public function takes any bytes: those past the file's end are read as 0.
#![tactic(auto)]

ghost use Rattle.std.specs.Prelude.{◌≡◌, ◌<◌, ltb, eqb, length, get_or};
ghost use Rattle.seq.specs.Lists.{every, pairwise, tally};
ghost use Rattle.contents.specs.Contents.{count, no_section, section_of, sections, Narrow, inside, cut_short, shares, parts, overlaps, of_kind, below, kinds_good, body_at, body_of};

use seq::Span;

// A section of a file: its kind, where its body begins, and how many bytes that has.
#[derive(Clone, Copy)]
pub struct Section {
    pub kind: u8,
    pub place: usize,
    pub len: usize,
}

// The number of sections that the page tells.
fn count(file: &[u8]) -> usize
    ensures value { result ≡ count file.now }
    ensures upper_bound { result < 256 }
{
    seq::size(seq::byte(file, 1))
}

// The section of an entry's bytes.
fn section_of(entry: &[u8]) -> Section
    ensures value { result ≡ section_of entry.now }
    ensures narrow { Narrow result }
{
    let kind = seq::byte(entry, 0);
    let place = seq::number32(seq::from(entry, 1)) as usize;
    let len = seq::number32(seq::from(entry, 5)) as usize;
    Section { kind, place, len }
}

// The k-th section. A page has at most 255.
fn section_at(file: &[u8], k: usize) -> Section
    requires { k < count file.now }
    ensures value { result ≡ get_or (sections file.now) k no_section }
    ensures narrow { Narrow result }
{
    let at = k * 9 + 2;
    section_of(seq::text(
        file,
        Span {
            from: at,
            to: at + 9,
        },
    ))
}

// ---- what a page may get wrong

// Is every section within the file?
fn all_inside(file: &[u8]) -> bool
    ensures { result ≡ every (inside file.now) (sections file.now) }
{
    for k in 0..count(file) {
        let x = section_at(file, k);
        if file.len() < x.place + x.len {
            return false;
        }
    }
    true
}

// Does the page or a section reach past the file's end?
pub fn is_cut(file: &[u8]) -> bool
    ensures { result ≡ cut_short file.now }
{
    if file.len() < count(file) * 9 + 2 {
        return true;
    }
    !all_inside(file)
}

// Is a byte of the one a byte of the other?
fn shares(x: Section, y: Section) -> bool
    requires { Narrow x × Narrow y }
    ensures { result ≡ shares x y }
{
    let x_end = x.place + x.len;
    let y_end = y.place + y.len;
    if x_end <= x.place {
        return false;
    }
    if y_end <= y.place {
        return false;
    }
    if y_end <= x.place {
        return false;
    }
    y.place < x_end
}

// The k-th part of the file, the page being the first.
fn part(file: &[u8], k: usize) -> Section
    requires { k < length (parts file.now) }
    ensures value { result ≡ get_or (parts file.now) k no_section }
    ensures narrow { Narrow result }
{
    if k == 0 {
        return Section {
            kind: 0,
            place: 0,
            len: count(file) * 9 + 2,
        };
    }
    section_at(file, k - 1)
}

// Is a section's byte in another section or in the page? Every two parts: i goes through all, j through those after it.
pub fn overlaps(file: &[u8]) -> bool
    ensures { result ≡ overlaps file.now }
{
    let n = count(file) + 1;
    for i in 0..n {
        let x = part(file, i);
        for j in i + 1..n {
            let y = part(file, j);
            if shares(x, y) {
                return true;
            }
        }
    }
    false
}

// Is every section's kind below n?
fn all_known(file: &[u8], n: u8) -> bool
    ensures { result ≡ every (λ x. ltb x.kind n) (sections file.now) }
{
    for k in 0..count(file) {
        let x = section_at(file, k);
        if n <= x.kind {
            return false;
        }
    }
    true
}

// How many sections are of a kind?
fn count_of(file: &[u8], kind: u8) -> usize
    ensures { result ≡ tally (of_kind kind) (sections file.now) }
{
    let mut n: usize = 0;
    for k in 0..count(file) {
        let x = section_at(file, k);
        if x.kind == kind {
            n += 1;
        }
    }
    n
}

// Has each kind below n one section?
fn each_once(file: &[u8], n: u8) -> bool
    ensures { result ≡ every (λ k. eqb (tally (of_kind k) (sections file.now)) 1) (below n) }
{
    for k in 0..n {
        if count_of(file, k) != 1 {
            return false;
        }
    }
    true
}

// Has each kind below n one section, and is there no section of another kind?
pub fn kinds_good(file: &[u8], n: u8) -> bool
    ensures { result ≡ kinds_good n file.now }
{
    if !all_known(file, n) {
        return false;
    }
    each_once(file, n)
}

// ---- bodies

fn body_at(file: &[u8], x: Section) -> &[u8]
    requires { Narrow x }
    ensures { result.now ≡ body_at file.now x }
{
    let at = x.place;
    seq::text(
        file,
        Span {
            from: at,
            to: at + x.len,
        },
    )
}

// The body of the first section of a kind; none where there is no such section.
pub fn body(file: &[u8], kind: u8) -> &[u8]
    ensures { result.now ≡ body_of kind file.now }
{
    for k in 0..count(file) {
        let x = section_at(file, k);
        if x.kind == kind {
            return body_at(file, x);
        }
    }
    &file[..0]
}
