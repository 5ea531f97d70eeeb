// The test of the five state rules (PROTOCOL, "State rules"). It runs at every step, so each table is passed once, unused rows are passed
// over in the pairs, and texts are compared last.
#![tactic(auto)]

ghost use Rattle.std.specs.Prelude.{◌≡◌, not, ◌&&◌, map, ◌+◌, ◌*◌, ◌-◌, length};
ghost use Rattle.seq.specs.Lists.{every, pairwise};
ghost use Rattle.seq.specs.Bytes.{byte_at};
ghost use Rattle.model.specs.State.{row_at};
ghost use Rattle.model.specs.Rules.{zero_row, ids_apart, holders_open, text_good, rows_apart, calls_apart, rules};
ghost use Rattle.image.specs.Image.{load, held, table_in};
ghost use Rattle.rules.specs.ByTable.{session_lawful, sessions_lawful, rule_of, wanted_of, held_lawful, row_lawful, table_lawful};
ghost use Rattle.rules.specs.ByTable.{zero_call, joins, call_lawful, calls_lawful};
ghost use Rattle.rules.specs.Mark.{mark, row_number, same_text, Noted};

use image::Kind;
use model::{HeldCall, Session};
use pattern::Row;
use uri::Policy;

// ---- sessions

fn session_lawful(s: Session) -> bool
    ensures { result ≡ session_lawful s }
{
    if state::is_open(s) {
        if s.id == 0 {
            return false;
        }
        if seq::LAST_ID < s.id {
            return false;
        }
        if seq::LAST_ID < s.request {
            return false;
        }
        return s.invocation <= seq::LAST_ID;
    }
    if s.id != 0 {
        return false;
    }
    if s.request != 0 {
        return false;
    }
    s.invocation == 0
}

// Are not both open under one ID?
fn ids_apart(s: Session, t: Session) -> bool
    ensures { result ≡ ids_apart s t }
{
    if s.id != t.id {
        return true;
    }
    if state::is_open(s) {
        return !state::is_open(t);
    }
    true
}

fn each_session(sessions: [Session; 8]) -> bool
    ensures { result ≡ every session_lawful sessions }
{
    for s in &sessions {
        if !session_lawful(*s) {
            return false;
        }
    }
    true
}

// Every two sessions.
fn session_pairs(sessions: [Session; 8]) -> bool
    ensures { result ≡ pairwise ids_apart sessions }
{
    for i in 0..8 {
        let s = sessions[i];
        for j in i + 1..8 {
            let t = sessions[j];
            if !ids_apart(s, t) {
                return false;
            }
        }
    }
    true
}

fn sessions_lawful(sessions: [Session; 8]) -> bool
    ensures { result ≡ sessions_lawful sessions }
{
    if !each_session(sessions) {
        return false;
    }
    session_pairs(sessions)
}

// ---- rows

fn nobody(holders: [bool; 8]) -> bool
    ensures { result ≡ every not holders }
{
    for holds in &holders {
        if *holds {
            return false;
        }
    }
    true
}

// Is the row all zero?
fn zero_row(row: Row) -> bool
    ensures { result ≡ zero_row row }
{
    if row.number != 0 {
        return false;
    }
    let policy = row.policy;
    if uri::policy_number(policy) != 0 {
        return false;
    }
    let holders = row.holders;
    if !nobody(holders) {
        return false;
    }
    if row.len != 0 {
        return false;
    }
    let text = row.text;
    seq::all_zero(&text)
}

// Are the holders' sessions open?
fn holders_open(sessions: [Session; 8], holders: [bool; 8]) -> bool
    ensures { result ≡ holders_open sessions holders }
{
    for i in 0..8 {
        if holders[i] {
            let s = sessions[i];
            if !state::is_open(s) {
                return false;
            }
        }
    }
    true
}

// Has a subscription a member, or a registration one owner?
fn is_wanted(kind: Kind, count: usize) -> bool
    ensures { result ≡ wanted_of kind count }
{
    match kind {
        Kind::Members => 1 <= count,
        Kind::Owner => count == 1,
    }
}

// Does a text obey the rule of its table's texts?
fn is_valid(kind: Kind, text: &[u8], policy: Policy) -> bool
    ensures { result ≡ rule_of kind text.now policy }
{
    match kind {
        Kind::Members => uri::valid_topic(text, policy),
        Kind::Owner => uri::valid_procedure(text, policy),
    }
}

// Does a used row's text obey its rule, with zeros after it?
fn text_good(kind: Kind, state: &[u8], k: usize) -> bool
    ensures { result ≡ text_good (rule_of kind) (row_at (table_in kind (held state.now)) k) }
{
    if uri::LONGEST < image::len(kind, state, k) {
        return false;
    }
    let policy = image::policy(kind, state, k);
    if !is_valid(kind, image::text(kind, state, k), policy) {
        return false;
    }
    image::is_padded(kind, state, k)
}

// Does a used row keep rule 3, its number aside?
fn used_row(kind: Kind, state: &[u8], k: usize, sessions: [Session; 8]) -> bool
    ensures { result ≡ held_lawful sessions kind (row_at (table_in kind (held state.now)) k) }
{
    let holders = image::holders(kind, state, k);
    if !is_wanted(kind, state::count(holders)) {
        return false;
    }
    if !holders_open(sessions, holders) {
        return false;
    }
    text_good(kind, state, k)
}

// Most rows are unused, so that is told first, and by their bytes.
fn row_lawful(kind: Kind, state: &[u8], k: usize, sessions: [Session; 8], counter: u64) -> bool
    ensures { result ≡ row_lawful sessions counter kind (row_at (table_in kind (held state.now)) k) }
{
    if image::is_blank(kind, state, k) {
        return true;
    }
    let number = image::number(kind, state, k);
    if number == 0 {
        let row = image::row(kind, state, k);
        return zero_row(row);
    }
    if counter < number {
        return false;
    }
    used_row(kind, state, k, sessions)
}

fn each_row(kind: Kind, state: &[u8], sessions: [Session; 8], counter: u64) -> bool
    ensures { result ≡ every (row_lawful sessions counter kind) (table_in kind (held state.now)).rows }
{
    for i in 0..32 {
        if !row_lawful(kind, state, i, sessions, counter) {
            return false;
        }
    }
    true
}

// The k-th byte from a text's end, or the first of a shorter text; 0 of the empty one.
fn from_end(text: &[u8], k: usize) -> u8
    ensures { result ≡ byte_at text.now (length text.now - k) }
{
    let n = text.len();
    if n < k {
        return seq::byte(text, 0);
    }
    seq::byte(text, n - k)
}

fn packed(policy: u8, last: u8, before: u8) -> u64
    ensures { result ≡ policy + 4 * (last + 256 * before) }
{
    policy as u64 + 4 * (last as u64 + 256 * (before as u64))
}

// Rows of one policy and text have one mark. Texts of a table tend to differ at their end.
fn mark(kind: Kind, state: &[u8], k: usize) -> u64
    ensures { result ≡ mark (row_at (table_in kind (held state.now)) k) }
{
    let policy = image::policy(kind, state, k);
    let text = image::text(kind, state, k);
    packed(
        uri::policy_number(policy),
        from_end(text, 1),
        from_end(text, 2),
    )
}

fn marks(kind: Kind, state: &[u8]) -> [u64; 32]
    ensures { result ≡ map mark (table_in kind (held state.now)).rows }
{
    let mut all = [0u64; 32];
    for i in 0..32 {
        all[i] = mark(kind, state, i);
    }
    all
}

fn numbers(kind: Kind, state: &[u8]) -> [u64; 32]
    ensures { result ≡ map row_number (table_in kind (held state.now)).rows }
{
    let mut all = [0u64; 32];
    for i in 0..32 {
        all[i] = image::number(kind, state, i);
    }
    all
}

// Have two rows one policy and text?
fn same_text(kind: Kind, state: &[u8], i: usize, j: usize) -> bool
    ensures { let t = table_in kind (held state.now) in
        result ≡ same_text (row_at t i) (row_at t j) }
{
    let p = image::policy(kind, state, i);
    let q = image::policy(kind, state, j);
    if !uri::same_policy(p, q) {
        return false;
    }
    let s = image::text(kind, state, i);
    let t = image::text(kind, state, j);
    seq::same_bytes(s, t)
}

// m and n are the rows' numbers, p and q their marks.
fn rows_apart(kind: Kind, state: &[u8], i: usize, j: usize, m: u64, n: u64, p: u64, q: u64) -> bool
    requires { Noted (row_at (table_in kind (held state.now)) i) m p × Noted (row_at (table_in kind (held state.now)) j) n q }
    ensures { let t = table_in kind (held state.now) in
        result ≡ rows_apart (row_at t i) (row_at t j) }
{
    if m == 0 {
        return true;
    }
    if n == 0 {
        return true;
    }
    if m == n {
        return false;
    }
    if p != q {
        return true;
    }
    !same_text(kind, state, i, j)
}

// Every two rows; none is compared with an unused one, and texts only where the marks are the same.
fn row_pairs(kind: Kind, state: &[u8]) -> bool
    ensures { result ≡ pairwise rows_apart (table_in kind (held state.now)).rows }
{
    let numbers = numbers(kind, state);
    let marks = marks(kind, state);
    for i in 0..32 {
        if numbers[i] == 0 {
            continue;
        }
        for j in i + 1..32 {
            if !rows_apart(
                kind, state, i, j, numbers[i], numbers[j], marks[i], marks[j],
            ) {
                return false;
            }
        }
    }
    true
}

fn table_lawful(kind: Kind, state: &[u8], sessions: [Session; 8]) -> bool
    ensures { result ≡ table_lawful sessions kind (table_in kind (held state.now)) }
{
    let counter = image::counter(kind, state);
    if seq::LAST_ID < counter {
        return false;
    }
    if !each_row(kind, state, sessions, counter) {
        return false;
    }
    row_pairs(kind, state)
}

// ---- held calls

fn zero_call(call: HeldCall) -> bool
    ensures { result ≡ zero_call call }
{
    if call.caller != 0 {
        return false;
    }
    if call.callee != 0 {
        return false;
    }
    call.invocation == 0
}

// Does the call join open sessions, with numbers up to their counters?
fn call_joins(caller: Session, callee: Session, call: HeldCall) -> bool
    ensures { result ≡ joins caller callee call }
{
    if !state::is_open(caller) {
        return false;
    }
    if !state::is_open(callee) {
        return false;
    }
    if caller.request < call.request {
        return false;
    }
    if call.invocation == 0 {
        return false;
    }
    call.invocation <= callee.invocation
}

fn call_lawful(call: HeldCall, sessions: [Session; 8]) -> bool
    ensures { result ≡ call_lawful sessions call }
{
    if call.request == 0 {
        return zero_call(call);
    }
    let i = call.caller;
    let j = call.callee;
    let caller = state::session_at(sessions, i);
    let callee = state::session_at(sessions, j);
    call_joins(caller, callee, call)
}

fn each_call(calls: [HeldCall; 32], sessions: [Session; 8]) -> bool
    ensures { result ≡ every (call_lawful sessions) calls }
{
    for call in &calls {
        if !call_lawful(*call, sessions) {
            return false;
        }
    }
    true
}

// Are two held calls distinct both ways: by caller and request, and by callee and invocation?
fn calls_apart(a: HeldCall, b: HeldCall) -> bool
    ensures { result ≡ calls_apart a b }
{
    if a.request == 0 {
        return true;
    }
    if b.request == 0 {
        return true;
    }
    if a.caller == b.caller {
        if a.request == b.request {
            return false;
        }
    }
    if a.callee == b.callee {
        return a.invocation != b.invocation;
    }
    true
}

// Every two held calls; none is compared with an unused one.
fn call_pairs(calls: [HeldCall; 32]) -> bool
    ensures { result ≡ pairwise calls_apart calls }
{
    for i in 0..32 {
        let a = calls[i];
        if a.request == 0 {
            continue;
        }
        for j in i + 1..32 {
            let b = calls[j];
            if !calls_apart(a, b) {
                return false;
            }
        }
    }
    true
}

fn calls_lawful(calls: [HeldCall; 32], sessions: [Session; 8]) -> bool
    ensures { result ≡ calls_lawful sessions calls }
{
    if !each_call(calls, sessions) {
        return false;
    }
    call_pairs(calls)
}

// ---- all

// Are they a state's bytes, and does it keep the five rules?
pub fn lawful(state: &[u8]) -> bool
    ensures { result ≡ ((load state.now).ok && rules (held state.now)) }
{
    if !image::is_formed(state) {
        return false;
    }
    let sessions = image::sessions(state);
    if !sessions_lawful(sessions) {
        return false;
    }
    if !table_lawful(Kind::Members, state, sessions) {
        return false;
    }
    if !table_lawful(Kind::Owner, state, sessions) {
        return false;
    }
    let calls = image::calls(state);
    calls_lawful(calls, sessions)
}
