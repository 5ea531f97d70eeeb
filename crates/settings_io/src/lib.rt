// A settings file read to lent settings, and lent settings written as a file. Each call is refused, or writes all that it should.
#![tactic(auto)]

ghost use Rattle.std.specs.Prelude.{◌≡◌, true, false, ◌∷◌, ◌++◌, ℕ, ◌+◌, ◌≤◌, length, replicate};
ghost use Rattle.seq.specs.Lists.{every, joined};
ghost use Rattle.seq.specs.BigEndian.{digits};
ghost use Rattle.buffer.specs.Capped.{capped};
ghost use Rattle.buffer.specs.Over.{over};
ghost use Rattle.settings.specs.Settings.{rule_good, default_settings};
ghost use Rattle.settings.specs.Lent.{text_bytes, rule_of, rule_bytes, settings_of, lawful, lent};
ghost use Rattle.settings_file.specs.declared.Version.TheVariants.{First, Second};
ghost use Rattle.settings_file.specs.File.{rules_in, whole_rules, settings_in, wrong_length, outside_rule, too_many_rules, answer, given, reads, writes, rules_body, file};
ghost use Rattle.settings_io.specs.Written.{entry_bytes, page_bytes};

use seq::Span;
use settings_file::{Refusal, Version};

// ---- lent settings

// Zeros. There are at most as many in a row as 32 unused rules have.
fn put_zeros(n: usize, out: &mut [u8], at: usize) -> usize
    requires { n ≤ 4224 }
    ensures place { result ≡ capped (at + length {A = ℕ} (replicate n 0)) }
    ensures bytes { out.new ≡ over out.old at (replicate n 0) }
{
    let zeros = [0u8; 4224];
    buffer::put_bytes(&zeros[..n], out, at)
}

// A text behind its length, padded with zeros.
fn put_text(text: &[u8], out: &mut [u8], at: usize) -> usize
    requires { length text.now ≤ 128 }
    ensures place { result ≡ capped (at + length (text_bytes text.now)) }
    ensures bytes { out.new ≡ over out.old at (text_bytes text.now) }
{
    let n = text.len();
    let o = buffer::put_byte(n as u8, out, at);
    let p = buffer::put_bytes(text, out, o);
    put_zeros(128 - n, out, p)
}

// The rule that stands first in b.
fn put_rule(b: &[u8], out: &mut [u8], at: usize) -> usize
    requires { rule_good (rule_of b.now) ≡ true }
    ensures place { result ≡ capped (at + length (rule_bytes (rule_of b.now))) }
    ensures bytes { out.new ≡ over out.old at (rule_bytes (rule_of b.now)) }
{
    let o = buffer::put_byte(seq::byte(b, 0), out, at);
    let p = buffer::put_byte(seq::byte(b, 1), out, o);
    let q = buffer::put_byte(seq::byte(b, 2), out, p);
    put_text(settings::prefix(b), out, q)
}

// The rules of a body of permissions.
fn put_rules(body: &[u8], out: &mut [u8], at: usize) -> usize
    requires { (whole_rules body.now ≡ true) × (every rule_good (rules_in body.now) ≡ true) }
    ensures place { result ≡ capped (at + length (joined rule_bytes (rules_in body.now))) }
    ensures bytes { out.new ≡ over out.old at (joined rule_bytes (rules_in body.now)) }
{
    let mut o = at;
    let mut i: usize = 0;
    while i < body.len() {
        o = put_rule(seq::from(body, i), out, o);
        i += settings_file::rule_length(body, i);
    }
    o
}

// The settings of a file in which nothing is wrong. What is unused lies between the rules and the wait.
fn put_settings(file: &[u8], out: &mut [u8]) -> usize
    requires { (wrong_length file.now ≡ false) × (too_many_rules file.now ≡ false) × (outside_rule file.now ≡ false) }
    ensures place { result ≡ length (lent (settings_in file.now)) }
    ensures bytes { out.new ≡ over out.old 0 (lent (settings_in file.now)) }
{
    let o = put_text(settings::text_in(contents::body(file, 0)), out, 0);
    let p = put_rules(contents::body(file, 1), out, o);
    let q = put_zeros(4353 - p, out, p);
    buffer::put_number32(settings_file::wait_in(file), out, q)
}

// Reads a file: gives the lent settings, and answers how many bytes they have.
pub fn read(reader: Version, file: &[u8], out: &mut [u8]) -> Result<usize, Refusal>
    ensures answer { result ≡ answer (reads reader file.now (length out.old)) }
    ensures bytes { out.new ≡ over out.old 0 (reads reader file.now (length out.old)).bytes }
{
    settings_file::judge(reader, file)?;
    if out.len() < 4357 {
        return Err(Refusal::NoRoom);
    }
    Ok(put_settings(file, out))
}

// Gives what is set where nothing else is: the realm `hub.bus`, no rule, a wait of 30,000 ms.
pub fn default(out: &mut [u8]) -> Result<usize, Refusal>
    ensures answer { result ≡ answer (given (length out.old) (lent default_settings)) }
    ensures bytes { out.new ≡ over out.old 0 (given (length out.old) (lent default_settings)).bytes }
{
    if out.len() < 4357 {
        return Err(Refusal::NoRoom);
    }
    let o = put_text(b"hub.bus", out, 0);
    let p = put_zeros(4224, out, o);
    Ok(buffer::put_number32(30000, out, p))
}

// ---- files

// The entry of a section.
fn put_entry(kind: u8, place: usize, len: usize, out: &mut [u8], at: usize) -> usize
    ensures place { result ≡ capped (at + length (entry_bytes kind place len)) }
    ensures bytes { out.new ≡ over out.old at (entry_bytes kind place len) }
{
    let o = buffer::put_byte(kind, out, at);
    let p = buffer::put_number32(place as u64, out, o);
    buffer::put_number32(len as u64, out, p)
}

// The page of version 1, of bodies of so many bytes.
fn put_first_page(realm: usize, rules: usize, out: &mut [u8]) -> usize
    requires { realm ≤ 129 }
    ensures place { result ≡ length (page_bytes First realm rules) }
    ensures bytes { out.new ≡ over out.old 0 (page_bytes First realm rules) }
{
    let o = buffer::put_byte(1, out, 0);
    let p = buffer::put_byte(2, out, o);
    let q = put_entry(0, 20, realm, out, p);
    put_entry(1, 20 + realm, rules, out, q)
}

// The page of version 2, whose wait has 4 bytes.
fn put_second_page(realm: usize, rules: usize, out: &mut [u8]) -> usize
    requires { (realm ≤ 129) × (rules ≤ 4224) }
    ensures place { result ≡ length (page_bytes Second realm rules) }
    ensures bytes { out.new ≡ over out.old 0 (page_bytes Second realm rules) }
{
    let o = buffer::put_byte(2, out, 0);
    let p = buffer::put_byte(3, out, o);
    let q = put_entry(0, 29, realm, out, p);
    let r = put_entry(1, 29 + realm, rules, out, q);
    put_entry(2, 29 + realm + rules, 4, out, r)
}

// The page of a version.
fn put_page(version: Version, realm: usize, rules: usize, out: &mut [u8]) -> usize
    requires { (realm ≤ 129) × (rules ≤ 4224) }
    ensures place { result ≡ length (page_bytes version realm rules) }
    ensures bytes { out.new ≡ over out.old 0 (page_bytes version realm rules) }
{
    match version {
        Version::First => put_first_page(realm, rules, out),
        Version::Second => put_second_page(realm, rules, out),
    }
}

// The body of permissions: of each used row the rule, without the zeros behind it.
fn put_body(settings: &[u8], out: &mut [u8], at: usize) -> usize
    requires { lawful settings.now ≡ true }
    ensures place { result ≡ capped (at + length (rules_body (settings_of settings.now))) }
    ensures bytes { out.new ≡ over out.old at (rules_body (settings_of settings.now)) }
{
    let n = settings::used(settings);
    let mut o = at;
    for k in 0..n {
        let b = settings::row(settings, k);
        let e = 4 + seq::size(seq::byte(b, 3));
        o = buffer::put_bytes(seq::text(b, Span { from: 0, to: e }), out, o);
    }
    o
}

// The file of lawful settings. What is written into no room is only measured.
fn put_file(version: Version, settings: &[u8], out: &mut [u8]) -> usize
    requires { lawful settings.now ≡ true }
    ensures place { result ≡ length (file version (settings_of settings.now)) }
    ensures bytes { out.new ≡ over out.old 0 (file version (settings_of settings.now)) }
{
    let mut none = [0u8; 0];
    let rules = put_body(settings, &mut none, 0);
    let realm = 1 + settings::realm(settings).len();
    let o = put_page(version, realm, rules, out);
    let p = buffer::put_bytes(seq::text(settings, Span { from: 0, to: realm }), out, o);
    let q = put_body(settings, out, p);
    match version {
        Version::First => q,
        Version::Second => buffer::put_bytes(seq::from(settings, 4353), out, q),
    }
}

// Writes lent settings: gives the file, and answers how many bytes it has.
pub fn write(version: Version, settings: &[u8], out: &mut [u8]) -> Result<usize, Refusal>
    ensures answer { result ≡ answer (writes version settings.now (length out.old)) }
    ensures bytes { out.new ≡ over out.old 0 (writes version settings.now (length out.old)).bytes }
{
    if !settings::lawful(settings) {
        return Err(Refusal::BadState);
    }
    let mut none = [0u8; 0];
    let count = put_file(version, settings, &mut none);
    if out.len() < count {
        return Err(Refusal::NoRoom);
    }
    put_file(version, settings, out);
    Ok(count)
}
