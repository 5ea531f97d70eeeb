// The lent settings, read and tested where they lie, and what they let a slot do. specs/Lent.antt has the layout.
// Each public function takes any bytes.
#![tactic(auto)]

ghost use Rattle.std.specs.Prelude.{◌≡◌, ◌&&◌, ◌+◌, ◌*◌, ◌≤◌, ◌<◌, ltb, length, take, drop};
ghost use Rattle.seq.specs.Lists.{every, pairwise};
ghost use Rattle.settings.specs.Settings.{action_no, realm_good, rule_good, rules_apart, wait_good, keeps_rules, fits, allowed};
ghost use Rattle.settings.specs.Lent.{rule_size, rules_at, settings_size, text_in, padded, rule_of, unused, rows, used_rows, row_formed, settings_of, formed, lawful};

use seq::Span;
use uri::Policy;

// What a rule speaks of (PROTOCOL, "Permissions").
#[derive(Clone, Copy)]
pub enum Action {
    Register,
    Call,
    Publish,
    Subscribe,
}

// The number of an action in a rule.
fn action_number(action: Action) -> u8
    ensures { result ≡ action_no action }
{
    match action {
        Action::Register => 0,
        Action::Call => 1,
        Action::Publish => 2,
        Action::Subscribe => 3,
    }
}

// ---- texts and rules, wherever they stand

// The text behind its length.
pub fn text_in(b: &[u8]) -> &[u8]
    ensures { result.now ≡ text_in b.now }
{
    let n = seq::size(seq::byte(b, 0));
    seq::text(b, Span { from: 1, to: 1 + n })
}

// Has the text room, and zeros only behind it?
fn is_padded(b: &[u8]) -> bool
    ensures { result ≡ padded b.now }
{
    let n = seq::size(seq::byte(b, 0));
    if uri::LONGEST < n {
        return false;
    }
    seq::all_zero(seq::from(b, 1 + n))
}

// The prefix of the rule that stands first.
pub fn prefix(b: &[u8]) -> &[u8]
    ensures { result.now ≡ (rule_of b.now).prefix }
{
    text_in(seq::from(b, 3))
}

// Is the realm an exact text? Its first component may be `wamp`, as a prefix's may.
pub fn realm_good(text: &[u8]) -> bool
    ensures { result ≡ realm_good text.now }
{
    uri::valid_topic(text, Policy::Exact)
}

// Does the rule that stands first name a slot, an action and a verdict, and is its prefix a prefix text?
pub fn rule_good(b: &[u8]) -> bool
    ensures { result ≡ rule_good (rule_of b.now) }
{
    if seq::byte(b, 0) >= 8 {
        return false;
    }
    if seq::byte(b, 1) >= 4 {
        return false;
    }
    if seq::byte(b, 2) >= 2 {
        return false;
    }
    uri::valid_topic(prefix(b), Policy::Prefix)
}

// Do the rules that stand first in a and in b differ in slot, action or prefix?
pub fn rules_apart(a: &[u8], b: &[u8]) -> bool
    ensures { result ≡ rules_apart (rule_of a.now) (rule_of b.now) }
{
    if seq::byte(a, 0) != seq::byte(b, 0) {
        return true;
    }
    if seq::byte(a, 1) != seq::byte(b, 1) {
        return true;
    }
    !seq::same_bytes(prefix(a), prefix(b))
}

// Is the wait from 1 to 60,000 ms?
pub fn wait_good(wait: u64) -> bool
    ensures { result ≡ wait_good wait }
{
    if wait == 0 {
        return false;
    }
    wait <= 60000
}

// ---- the rows of lent settings

// The k-th row.
pub fn row(settings: &[u8], k: usize) -> &[u8]
    requires { k < 32 }
    ensures { result.now ≡ take rule_size (drop (k * rule_size) (drop rules_at settings.now)) }
{
    let at = 129 + k * 132;
    seq::text(
        settings,
        Span {
            from: at,
            to: at + 132,
        },
    )
}

fn is_unused(row: &[u8]) -> bool
    ensures { result ≡ unused row.now }
{
    seq::byte(row, 3) == 0
}

// How many rows are used, those before the first that is not.
pub fn used(settings: &[u8]) -> usize
    ensures { result ≡ length (used_rows settings.now) }
{
    for k in 0..32 {
        if is_unused(row(settings, k)) {
            return k;
        }
    }
    32
}

// Has each of the n used rows' prefixes room, and zeros only behind it?
fn rows_formed(settings: &[u8], n: usize) -> bool
    requires { n ≡ length (used_rows settings.now) }
    ensures { result ≡ every row_formed (used_rows settings.now) }
{
    for k in 0..n {
        if !is_padded(seq::from(row(settings, k), 3)) {
            return false;
        }
    }
    true
}

// Are they settings' bytes: as many as settings have, texts in their room, and zeros wherever nothing is set?
fn is_formed(settings: &[u8], n: usize) -> bool
    requires { n ≡ length (used_rows settings.now) }
    ensures { result ≡ formed settings.now }
{
    if settings.len() != 4357 {
        return false;
    }
    if !is_padded(seq::text(settings, Span { from: 0, to: 129 })) {
        return false;
    }
    if !rows_formed(settings, n) {
        return false;
    }
    seq::all_zero(seq::text(
        settings,
        Span {
            from: 129 + n * 132,
            to: 4353,
        },
    ))
}

// Is each of the n used rows a good rule?
fn each_good(settings: &[u8], n: usize) -> bool
    requires { n ≡ length (used_rows settings.now) }
    ensures { result ≡ every rule_good (settings_of settings.now).rules }
{
    for k in 0..n {
        if !rule_good(row(settings, k)) {
            return false;
        }
    }
    true
}

// Every two of the n used rows: i goes through all, j through those after it.
fn each_apart(settings: &[u8], n: usize) -> bool
    requires { n ≡ length (used_rows settings.now) }
    ensures { result ≡ pairwise rules_apart (settings_of settings.now).rules }
{
    for i in 0..n {
        let a = row(settings, i);
        for j in i + 1..n {
            let b = row(settings, j);
            if !rules_apart(a, b) {
                return false;
            }
        }
    }
    true
}

// ---- the settings

// The realm of the settings.
pub fn realm(settings: &[u8]) -> &[u8]
    ensures { result.now ≡ (settings_of settings.now).realm }
{
    text_in(settings)
}

// How long a call may wait, in milliseconds.
pub fn wait(settings: &[u8]) -> u64
    ensures { result ≡ (settings_of settings.now).wait }
{
    seq::number32(seq::from(settings, 4353))
}

// Does everything that is set keep its rule?
fn keeps_rules(settings: &[u8], n: usize) -> bool
    requires { n ≡ length (used_rows settings.now) }
    ensures { result ≡ keeps_rules (settings_of settings.now) }
{
    if !each_apart(settings, n) {
        return false;
    }
    if !realm_good(realm(settings)) {
        return false;
    }
    if !each_good(settings, n) {
        return false;
    }
    wait_good(wait(settings))
}

// Do the lent settings keep every rule (PROTOCOL, "Settings rules")?
pub fn lawful(settings: &[u8]) -> bool
    ensures { result ≡ lawful settings.now }
{
    let n = used(settings);
    if !is_formed(settings, n) {
        return false;
    }
    keeps_rules(settings, n)
}

// ---- permissions

// Does the rule that stands first speak of this slot's action on the text?
fn rule_fits(b: &[u8], slot: usize, action: u8, text: &[u8]) -> bool
    ensures { result ≡ fits slot action text.now (rule_of b.now) }
{
    if seq::size(seq::byte(b, 0)) != slot {
        return false;
    }
    if seq::byte(b, 1) != action {
        return false;
    }
    pattern::begins(prefix(b), text)
}

// Does the rule that stands first speak of this, with a longer prefix than the one that decides so far?
fn decides(b: &[u8], slot: usize, action: u8, text: &[u8], best: usize) -> bool
    ensures { let rule = rule_of b.now in
        result ≡ fits slot action text.now rule && ltb best (length rule.prefix) }
{
    if !rule_fits(b, slot, action, text) {
        return false;
    }
    best < prefix(b).len()
}

// May the slot do this to the text? The longest rule that fits decides; with none it is yes.
pub fn allowed(settings: &[u8], slot: usize, action: Action, text: &[u8]) -> bool
    ensures { result ≡ allowed (settings_of settings.now) slot action text.now }
{
    let number = action_number(action);
    let mut best: usize = 0;
    let mut yes = true;
    for k in 0..32 {
        let b = row(settings, k);
        if is_unused(b) {
            return yes;
        }
        if decides(b, slot, number, text, best) {
            best = prefix(b).len();
            yes = seq::byte(b, 2) == 1;
        }
    }
    yes
}
