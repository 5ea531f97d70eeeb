// The lent state: its parts read from the bytes that the host lends, where they lie. specs/Image.antt has the layout.
// Each public function takes any bytes: those that are not as many as a state has are read as an empty hub's, which `is_formed` refuses.
#![tactic(auto)]

ghost use Rattle.std.specs.Prelude.{◌≡◌, ◌≤◌, map, length};
ghost use Rattle.seq.specs.Lists.{every};
ghost use Rattle.pattern.specs.Choice.{no_row, row_text};
ghost use Rattle.model.specs.State.{slots, row_count, row_at};
ghost use Rattle.model.specs.Rules.{is_zero};
ghost use Rattle.image.specs.Image.{session_size, row_size, call_size, image_size, number, cut, load, held, table_in, table_at, row_part, padded_row, formed};
ghost use Rattle.image.specs.Image.{is_status, status_of, session_of, session_formed, call_of, policy_of};
ghost use Rattle.image.specs.Image.{bits_of, owner_of, holders_of, holders_end, row_of, row_formed};

use model::{HeldCall, Session, Status};
use pattern::Row;
use seq::Span;
use uri::Policy;

// What a table's rows keep of their holders in one byte: the members of a subscription as bits, the slot of a registration's owner.
#[derive(Clone, Copy)]
pub enum Kind {
    Members,
    Owner,
}

// The number in the first 8 bytes.
fn load_number(s: &[u8]) -> u64
    requires { 8 ≤ length s.now }
    ensures { result ≡ number 8 s.now }
{
    let mut x: u64 = 0;
    for i in 0..8 {
        x = x * 256 + seq::wide(s[i]);
    }
    x
}

// The codes are the lent layout's, as C reads it.
fn load_status(b: u8) -> Status
    ensures { result ≡ status_of b }
{
    match b {
        1 => Status::Attached,
        2 => Status::Open,
        4 => Status::AttachedMsgPack,
        5 => Status::OpenMsgPack,
        _ => Status::Closed,
    }
}

// The codes are the lent layout's, as C reads it.
fn load_policy(b: u8) -> Policy
    ensures { result ≡ policy_of b }
{
    match b {
        1 => Policy::Prefix,
        2 => Policy::Wildcard,
        _ => Policy::Exact,
    }
}

// The session whose bytes stand first.
fn load_session(s: &[u8]) -> Session
    requires { session_size ≤ length s.now }
    ensures { result ≡ session_of s.now }
{
    let status = load_status(s[0]);
    let id = load_number(&s[1..]);
    let request = load_number(&s[9..]);
    let invocation = load_number(&s[17..]);
    Session {
        status,
        id,
        request,
        invocation,
    }
}

fn load_sessions(s: &[u8]) -> [Session; 8]
    requires { 200 ≤ length s.now }
    ensures { result ≡ map session_of (cut session_size slots s.now) }
{
    let none = Session {
        status: Status::Closed,
        id: 0,
        request: 0,
        invocation: 0,
    };
    let mut rows = [none; 8];
    for i in 0..8 {
        let at = i * 25;
        let e = at + 25;
        rows[i] = load_session(&s[at..e]);
    }
    rows
}

// Eight member bits, slot 0 lowest.
fn load_members(b: u8) -> [bool; 8]
    ensures { result ≡ bits_of slots b }
{
    let mut holders = [false; 8];
    let mut left = b;
    for i in 0..8 {
        holders[i] = left % 2 == 1;
        left = left / 2;
    }
    holders
}

// The owner alone; none in an unused row whose owner's byte is 0.
fn load_owner(number: u64, b: u8) -> [bool; 8]
    ensures { result ≡ owner_of number b }
{
    let mut holders = [false; 8];
    if number == 0 {
        if b == 0 {
            return holders;
        }
    }
    let slot = seq::size(b);
    if slot < 8 {
        holders[slot] = true;
    }
    holders
}

fn load_holders(kind: Kind, number: u64, b: u8) -> [bool; 8]
    ensures { result ≡ holders_of kind number b }
{
    match kind {
        Kind::Members => load_members(b),
        Kind::Owner => load_owner(number, b),
    }
}

// A row's text.
fn load_text(s: &[u8]) -> [u8; 128]
    requires { length s.now ≡ 128 }
    ensures { result ≡ s.now }
{
    let mut text = [0u8; 128];
    text.copy_from_slice(s);
    text
}

fn load_row(kind: Kind, s: &[u8]) -> Row
    requires { length s.now ≡ row_size }
    ensures { result ≡ row_of kind s.now }
{
    let number = load_number(s);
    let policy = load_policy(s[8]);
    let holders = load_holders(kind, number, s[9]);
    let len = seq::size(s[10]);
    let text = load_text(&s[11..]);
    Row {
        number,
        policy,
        holders,
        len,
        text,
    }
}

fn load_call(s: &[u8]) -> HeldCall
    requires { call_size ≤ length s.now }
    ensures { result ≡ call_of s.now }
{
    let caller = seq::size(s[0]);
    let request = load_number(&s[1..]);
    let callee = seq::size(s[9]);
    let invocation = load_number(&s[10..]);
    HeldCall {
        caller,
        request,
        callee,
        invocation,
    }
}

fn load_calls(s: &[u8]) -> [HeldCall; 32]
    requires { 576 ≤ length s.now }
    ensures { result ≡ map call_of (cut call_size row_count s.now) }
{
    let none = HeldCall {
        caller: 0,
        request: 0,
        callee: 0,
        invocation: 0,
    };
    let mut rows = [none; 32];
    for i in 0..32 {
        let at = i * 18;
        let e = at + 18;
        rows[i] = load_call(&s[at..e]);
    }
    rows
}

// Does the byte name a status?
fn is_status(b: u8) -> bool
    ensures { result ≡ is_status b }
{
    if b < 3 {
        return true;
    }
    if b == 4 {
        return true;
    }
    b == 5
}

// Does every status byte name a status?
fn sessions_formed(s: &[u8]) -> bool
    requires { 200 ≤ length s.now }
    ensures { result ≡ every session_formed (cut session_size slots s.now) }
{
    for i in 0..8 {
        if !is_status(s[i * 25]) {
            return false;
        }
    }
    true
}

// Where the holders' bytes of a table end.
fn holders_end(kind: Kind) -> u64
    ensures { result ≡ holders_end kind }
{
    match kind {
        Kind::Members => 256,
        Kind::Owner => 8,
    }
}

// Does a row's policy byte name a policy, and its holders' byte holders?
fn row_formed(kind: Kind, s: &[u8]) -> bool
    requires { length s.now ≡ row_size }
    ensures { result ≡ row_formed kind s.now }
{
    if s[8] >= 3 {
        return false;
    }
    seq::wide(s[9]) < holders_end(kind)
}

fn rows_formed(kind: Kind, s: &[u8]) -> bool
    requires { 4448 ≤ length s.now }
    ensures { result ≡ every (row_formed kind) (cut row_size row_count s.now) }
{
    for i in 0..32 {
        let at = i * 139;
        let e = at + 139;
        if !row_formed(kind, &s[at..e]) {
            return false;
        }
    }
    true
}

// Does every status and policy byte name a value, and is every owner a slot?
fn parts_formed(s: &[u8]) -> bool
    requires { image_size ≤ length s.now }
    ensures { result ≡ formed s.now }
{
    if !sessions_formed(s) {
        return false;
    }
    if !rows_formed(Kind::Members, &s[208..]) {
        return false;
    }
    rows_formed(Kind::Owner, &s[4664..])
}

pub fn no_row() -> Row
    ensures { result ≡ no_row }
{
    Row {
        number: 0,
        policy: Policy::Exact,
        holders: [false; 8],
        len: 0,
        text: [0u8; 128],
    }
}

// ---- the parts of a state

// Are they a state's bytes: as many as a state has, and well-formed?
pub fn is_formed(state: &[u8]) -> bool
    ensures { result ≡ (load state.now).ok }
{
    if state.len() != 9688 {
        return false;
    }
    parts_formed(state)
}

pub fn sessions(state: &[u8]) -> [Session; 8]
    ensures { result ≡ (held state.now).sessions }
{
    if state.len() != 9688 {
        let none = Session {
            status: Status::Closed,
            id: 0,
            request: 0,
            invocation: 0,
        };
        return [none; 8];
    }
    load_sessions(state)
}

pub fn calls(state: &[u8]) -> [HeldCall; 32]
    ensures { result ≡ (held state.now).calls }
{
    if state.len() != 9688 {
        let none = HeldCall {
            caller: 0,
            request: 0,
            callee: 0,
            invocation: 0,
        };
        return [none; 32];
    }
    load_calls(&state[9112..])
}

// Where a table's bytes begin.
pub fn start(kind: Kind) -> usize
    ensures { result ≡ table_at kind }
{
    match kind {
        Kind::Members => 200,
        Kind::Owner => 4656,
    }
}

// A table's counter: the last ID given out.
pub fn counter(kind: Kind, state: &[u8]) -> u64
    ensures { result ≡ (table_in kind (held state.now)).counter }
{
    if state.len() != 9688 {
        return 0;
    }
    let at = start(kind);
    load_number(&state[at..])
}

// ---- a row, or what is asked of it, where it lies in the bytes; beyond the table's last it is an unused one

// The row's bytes; none beyond the last.
fn row_part(kind: Kind, state: &[u8], k: usize) -> &[u8]
    ensures { result.now ≡ row_part kind state.now k }
{
    if state.len() != 9688 {
        return &state[..0];
    }
    if 32 <= k {
        return &state[..0];
    }
    let at = start(kind) + 8 + k * 139;
    let e = at + 139;
    &state[at..e]
}

pub fn row(kind: Kind, state: &[u8], k: usize) -> Row
    ensures { result ≡ row_at (table_in kind (held state.now)) k }
{
    let s = row_part(kind, state, k);
    if s.len() != 139 {
        return no_row();
    }
    load_row(kind, s)
}

pub fn number(kind: Kind, state: &[u8], k: usize) -> u64
    ensures { result ≡ (row_at (table_in kind (held state.now)) k).number }
{
    let s = row_part(kind, state, k);
    if s.len() != 139 {
        return 0;
    }
    load_number(s)
}

pub fn policy(kind: Kind, state: &[u8], k: usize) -> Policy
    ensures { result ≡ (row_at (table_in kind (held state.now)) k).policy }
{
    let s = row_part(kind, state, k);
    if s.len() != 139 {
        return Policy::Exact;
    }
    load_policy(s[8])
}

pub fn holders(kind: Kind, state: &[u8], k: usize) -> [bool; 8]
    ensures { result ≡ (row_at (table_in kind (held state.now)) k).holders }
{
    let s = row_part(kind, state, k);
    if s.len() != 139 {
        return [false; 8];
    }
    let number = load_number(s);
    load_holders(kind, number, s[9])
}

// The length of the row's text, as it is stored.
pub fn len(kind: Kind, state: &[u8], k: usize) -> usize
    ensures { result ≡ (row_at (table_in kind (held state.now)) k).len }
{
    let s = row_part(kind, state, k);
    if s.len() != 139 {
        return 0;
    }
    seq::size(s[10])
}

// The row's text.
pub fn text(kind: Kind, state: &[u8], k: usize) -> &[u8]
    ensures { result.now ≡ row_text (row_at (table_in kind (held state.now)) k) }
{
    let s = row_part(kind, state, k);
    if s.len() != 139 {
        return s;
    }
    let n = seq::size(s[10]);
    seq::text(&s[11..], Span { from: 0, to: n })
}

// Is the text followed by zeros only?
pub fn is_padded(kind: Kind, state: &[u8], k: usize) -> bool
    ensures { result ≡ padded_row (row_at (table_in kind (held state.now)) k) }
{
    let s = row_part(kind, state, k);
    if s.len() != 139 {
        return true;
    }
    let n = seq::size(s[10]);
    seq::all_zero(seq::text(&s[11..], Span { from: n, to: 128 }))
}

// Are the row's bytes all zero? Then it is an unused row (proofs/Parts.antt), which is the quickest to tell.
pub fn is_blank(kind: Kind, state: &[u8], k: usize) -> bool
    ensures { result ≡ every is_zero (row_part kind state.now k) }
{
    seq::all_zero(row_part(kind, state, k))
}
