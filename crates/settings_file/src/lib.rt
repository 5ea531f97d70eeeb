// The settings file: read, judged by its eight refusals in their order, and written. specs/File.antt says what each is.
#![tactic(auto)]

ghost use Rattle.std.specs.Prelude.{◌≡◌, ◌+◌, length, drop, true};
ghost use Rattle.seq.specs.Lists.{every, pairwise};
ghost use Rattle.contents.specs.Contents.{body_of};
ghost use Rattle.settings.specs.Settings.{rule_good, rules_apart};
ghost use Rattle.settings.specs.Lent.{rule_of};
ghost use Rattle.settings_file.specs.File.{refusal_no, version_no, rules_kind, kind_count, has_wait, rule_length, rules_in, whole_rules, wait_in, settings_in, unknown_version, realm_fits, wait_fits, wrong_length, outside_rule, judged};

// The versions of the file: the second has a wait besides. Also what a reader knows: the first one's knows no other.
#[derive(Clone, Copy)]
pub enum Version {
    First,
    Second,
}

// Why a file is not read or written (PROTOCOL, "The refusals of a file").
#[derive(Clone, Copy, Debug, PartialEq, Eq)]
pub enum Refusal {
    BadState,
    NoRoom,
    UnknownVersion,
    CutShort,
    Overlap,
    WrongKinds,
    WrongLength,
    TooManyRules,
    RuleTwice,
    OutsideRule,
}

// The kinds of sections.
const REALM: u8 = 0;

const RULES: u8 = 1;

const WAIT: u8 = 2;

impl Refusal {
    // The number by which C knows the refusal.
    pub fn number(self) -> u8
        ensures { result ≡ refusal_no self }
    {
        match self {
            Refusal::BadState => 1,
            Refusal::NoRoom => 5,
            Refusal::UnknownVersion => 6,
            Refusal::CutShort => 7,
            Refusal::Overlap => 8,
            Refusal::WrongKinds => 9,
            Refusal::WrongLength => 10,
            Refusal::TooManyRules => 11,
            Refusal::RuleTwice => 12,
            Refusal::OutsideRule => 13,
        }
    }
}

fn version_number(version: Version) -> u8
    ensures { result ≡ version_no version }
{
    match version {
        Version::First => 1,
        Version::Second => 2,
    }
}

// How many kinds a file's version has.
fn kind_count(file: &[u8]) -> u8
    ensures { result ≡ kind_count file.now }
{
    if seq::byte(file, 0) == 1 { 2 } else { 3 }
}

fn has_wait(file: &[u8]) -> bool
    ensures { result ≡ has_wait file.now }
{
    seq::byte(file, 0) != 1
}

// ---- the body of permissions. Each loop goes from rule to rule.

// How many bytes the rule has that stands at a place.
pub fn rule_length(body: &[u8], at: usize) -> usize
    ensures { result ≡ rule_length (drop at body.now) }
{
    4 + seq::size(seq::byte(seq::from(body, at), 3))
}

// Has the body each of its rules whole?
fn is_whole(body: &[u8]) -> bool
    ensures { result ≡ whole_rules body.now }
{
    let mut at: usize = 0;
    while at < body.len() {
        let n = rule_length(body, at);
        if body.len() - at < n {
            return false;
        }
        at += n;
    }
    true
}

// How many rules the body has.
fn rule_count(body: &[u8]) -> usize
    requires { whole_rules body.now ≡ true }
    ensures { result ≡ length (rules_in body.now) }
{
    let mut count: usize = 0;
    let mut at: usize = 0;
    while at < body.len() {
        count += 1;
        at += rule_length(body, at);
    }
    count
}

// Does every rule from the place `from` on differ from the rule at the place `at`?
fn none_like(body: &[u8], at: usize, from: usize) -> bool
    requires { whole_rules (drop from body.now) ≡ true }
    ensures { result ≡ every (rules_apart (rule_of (drop at body.now))) (rules_in (drop from body.now)) }
{
    let mut i = from;
    while i < body.len() {
        if !settings::rules_apart(seq::from(body, at), seq::from(body, i)) {
            return false;
        }
        i += rule_length(body, i);
    }
    true
}

// Do every two rules differ in slot, action or prefix?
fn all_apart(body: &[u8]) -> bool
    requires { whole_rules body.now ≡ true }
    ensures { result ≡ pairwise rules_apart (rules_in body.now) }
{
    let mut at: usize = 0;
    while at < body.len() {
        let next = at + rule_length(body, at);
        if !none_like(body, at, next) {
            return false;
        }
        at = next;
    }
    true
}

// Is every rule as it should be?
fn all_good(body: &[u8]) -> bool
    requires { whole_rules body.now ≡ true }
    ensures { result ≡ every rule_good (rules_in body.now) }
{
    let mut at: usize = 0;
    while at < body.len() {
        if !settings::rule_good(seq::from(body, at)) {
            return false;
        }
        at += rule_length(body, at);
    }
    true
}

// ---- the refusals

// 6: is the version one that the reader does not know?
fn is_unknown(reader: Version, file: &[u8]) -> bool
    ensures { result ≡ unknown_version reader file.now }
{
    if file.len() == 0 {
        return false;
    }
    if file[0] == 0 {
        return true;
    }
    version_number(reader) < file[0]
}

// Is the realm's body as long as what it holds?
fn realm_fits(body: &[u8]) -> bool
    ensures { result ≡ realm_fits body.now }
{
    body.len() == 1 + seq::size(seq::byte(body, 0))
}

fn wait_fits(file: &[u8]) -> bool
    ensures { result ≡ wait_fits file.now }
{
    if !has_wait(file) {
        return true;
    }
    contents::body(file, WAIT).len() == 4
}

// 10: is a body's length not that of what it holds?
fn is_misfit(file: &[u8]) -> bool
    ensures { result ≡ wrong_length file.now }
{
    if !realm_fits(contents::body(file, REALM)) {
        return true;
    }
    if !is_whole(contents::body(file, RULES)) {
        return true;
    }
    !wait_fits(file)
}

// The wait that the file sets.
pub fn wait_in(file: &[u8]) -> u64
    ensures { result ≡ wait_in file.now }
{
    if !has_wait(file) {
        return 30000;
    }
    seq::number32(contents::body(file, WAIT))
}

// 13: is a text or a number outside its rule?
fn is_outside(file: &[u8], rules: &[u8]) -> bool
    requires { (rules.now ≡ body_of rules_kind file.now) × (whole_rules rules.now ≡ true) }
    ensures { result ≡ outside_rule file.now }
{
    if !settings::realm_good(settings::text_in(contents::body(file, REALM))) {
        return true;
    }
    if !all_good(rules) {
        return true;
    }
    !settings::wait_good(wait_in(file))
}

// The first refusal that applies, if any does.
pub fn judge(reader: Version, file: &[u8]) -> Result<(), Refusal>
    ensures { result ≡ judged reader file.now }
{
    if is_unknown(reader, file) {
        return Err(Refusal::UnknownVersion);
    }
    if contents::is_cut(file) {
        return Err(Refusal::CutShort);
    }
    if contents::overlaps(file) {
        return Err(Refusal::Overlap);
    }
    if !contents::kinds_good(file, kind_count(file)) {
        return Err(Refusal::WrongKinds);
    }
    if is_misfit(file) {
        return Err(Refusal::WrongLength);
    }
    let rules = contents::body(file, RULES);
    if 32 < rule_count(rules) {
        return Err(Refusal::TooManyRules);
    }
    if !all_apart(rules) {
        return Err(Refusal::RuleTwice);
    }
    if is_outside(file, rules) {
        return Err(Refusal::OutsideRule);
    }
    Ok(())
}
