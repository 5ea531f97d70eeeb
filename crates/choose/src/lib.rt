// The choice among the registrations of the lent state for a URI (PROTOCOL, "Matching"). Rows are read where they lie, and of an unused one
// only its number.
#![tactic(auto)]

ghost use Rattle.std.specs.Prelude.{◌≡◌};
ghost use Rattle.uri.specs.Components.{EndsOf};
ghost use Rattle.pattern.specs.Match.{wins_text};
ghost use Rattle.pattern.specs.Choice.{row_text, place_of, candidate, considered, best_of, choice};
ghost use Rattle.model.specs.State.{row_at};
ghost use Rattle.image.specs.Image.{held};

use image::Kind;
use uri::Policy;

// Is the row in use, with this policy, and does its text fit?
fn is_candidate(state: &[u8], k: usize, policy: Policy, uri: &[u8], ends: &[usize]) -> bool
    requires { EndsOf uri.now ends.now }
    ensures { result ≡ candidate policy uri.now (row_at (held state.now).registrations k) }
{
    if image::number(Kind::Owner, state, k) == 0 {
        return false;
    }
    let own = image::policy(Kind::Owner, state, k);
    if !uri::same_policy(own, policy) {
        return false;
    }
    pattern::fits(own, image::text(Kind::Owner, state, k), uri, ends)
}

// Is the text of row i the better one?
fn row_wins(state: &[u8], policy: Policy, i: usize, k: usize) -> bool
    ensures { let t = (held state.now).registrations in
        result ≡ wins_text policy (row_text (row_at t i)) (row_text (row_at t k)) }
{
    let new = image::text(Kind::Owner, state, i);
    let old = image::text(Kind::Owner, state, k);
    pattern::wins(policy, new, old)
}

// The best place so far, with place i considered.
fn consider(
    best: Option<usize>,
    state: &[u8],
    policy: Policy,
    uri: &[u8],
    ends: &[usize],
    i: usize,
) -> Option<usize>
    requires { EndsOf uri.now ends.now }
    ensures { let t = (held state.now).registrations in
        result ≡ considered policy uri.now best (row_at t (place_of best)) (row_at t i) i }
{
    if !is_candidate(state, i, policy, uri, ends) {
        return best;
    }
    let Some(k) = best else {
        return Some(i);
    };
    if row_wins(state, policy, i, k) {
        return Some(i);
    }
    Some(k)
}

// The place of the best fitting row of a policy.
fn best_of(state: &[u8], policy: Policy, uri: &[u8], ends: &[usize]) -> Option<usize>
    requires { EndsOf uri.now ends.now }
    ensures { result ≡ best_of (held state.now).registrations.rows policy uri.now }
{
    let mut best = None;
    for i in 0..32 {
        best = consider(best, state, policy, uri, ends, i);
    }
    best
}

// The place of the exact fitting row, else of the longest prefix, else of the best wildcard. The URI is split once, where wildcards are
// asked; the others go by its bytes alone.
pub fn choose(state: &[u8], uri: &[u8]) -> Option<usize>
    ensures { result ≡ choice (held state.now).registrations.rows uri.now }
{
    let none = [0usize; 1];
    let exact = best_of(state, Policy::Exact, uri, &none[..0]);
    if let Some(k) = exact {
        return Some(k);
    }
    let prefix = best_of(state, Policy::Prefix, uri, &none[..0]);
    if let Some(k) = prefix {
        return Some(k);
    }
    let split = uri::split(uri);
    let n = split.count;
    let ends = split.places;
    best_of(state, Policy::Wildcard, uri, &ends[..n])
}
