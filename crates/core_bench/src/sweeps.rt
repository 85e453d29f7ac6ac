//! Loads and stores of the pages in turn, many times over: what is timed.
ghost use Rattle.std.specs.Prelude.{◌≡◌, ◌<◌, ◌≤◌, ◌+◌, length, true};
ghost use Rattle.page_model.specs.Setups.{has_page, is_writable};
ghost use Rattle.core_bench.specs.Hands.{CoreGoesOn, HasRegion};

use page_base::Key;
use store_trait::Store;
use stripe_core::{Look, Stripe};

const MOST_EVENTS: u64 = 1 << 61;

/// Where in a page the access to it goes: the pages' parts lie in different lines of the cache.
fn part_of(page: u32, room: u32) -> u32
    ensures { result ≤ room }
{
    (page % 64 * 64).min(room)
}

/// One for a hit, else zero.
fn load_part<S: Store>(stripe: &mut Stripe<S>, key: Key, place: u32, buf: &mut [u8]) -> u64
    requires page { has_page stripe.old.setup key ≡ true }
    requires some { 0 < length buf.old }
    requires inside { place + length buf.old ≤ stripe.old.setup.page_size }
    ensures on { CoreGoesOn stripe.old stripe.new }
    ensures below { result ≤ 1 }
    ensures size { length buf.new ≡ length buf.old }
{
    if stripe.events() < MOST_EVENTS && matches!(stripe.load(key, place, buf), Look::Hit) {
        1
    } else {
        0
    }
}

/// One for a hit, else zero.
fn save_part<S: Store>(stripe: &mut Stripe<S>, key: Key, place: u32, bytes: &[u8]) -> u64
    requires page { has_page stripe.old.setup key ≡ true }
    requires writable { is_writable stripe.old.setup key.region ≡ true }
    requires some { 0 < length bytes.now }
    requires inside { place + length bytes.now ≤ stripe.old.setup.page_size }
    ensures on { CoreGoesOn stripe.old stripe.new }
    ensures below { result ≤ 1 }
{
    if stripe.events() < MOST_EVENTS && matches!(stripe.save(key, place, bytes), Look::Hit) {
        1
    } else {
        0
    }
}

/// Loads a part of each page, and counts the hits. The part lies within `room` bytes of the page's front.
#[tactic(auto, using(crate::proofs::Regions::has, crate::proofs::Regions::still, crate::proofs::Going::goes_twice))]
fn load_each<S: Store>(stripe: &mut Stripe<S>, pages: u32, room: u32, buf: &mut [u8]) -> u64
    requires region { HasRegion stripe.old.setup 0 pages }
    requires some { 0 < length buf.old }
    requires inside { room + length buf.old ≤ stripe.old.setup.page_size }
    ensures on { CoreGoesOn stripe.old stripe.new }
    ensures below { result ≤ pages }
    ensures size { length buf.new ≡ length buf.old }
{
    let mut hits = 0;
    for page in 0..pages {
        let key = Key { region: 0, page };
        hits += load_part(stripe, key, part_of(page, room), buf);
    }
    hits
}

/// Stores to a part of each page, and counts the hits.
#[tactic(auto, using(crate::proofs::Regions::has, crate::proofs::Regions::writable, crate::proofs::Regions::still, crate::proofs::Going::goes_twice))]
fn save_each<S: Store>(stripe: &mut Stripe<S>, pages: u32, room: u32, bytes: &[u8]) -> u64
    requires region { HasRegion stripe.old.setup 0 pages }
    requires some { 0 < length bytes.now }
    requires inside { room + length bytes.now ≤ stripe.old.setup.page_size }
    ensures on { CoreGoesOn stripe.old stripe.new }
    ensures below { result ≤ pages }
{
    let mut hits = 0;
    for page in 0..pages {
        let key = Key { region: 0, page };
        hits += save_part(stripe, key, part_of(page, room), bytes);
    }
    hits
}

/// Loads a part of each page, so many rounds, and counts the hits.
#[tactic(auto, using(crate::proofs::Regions::still, crate::proofs::Going::goes_twice))]
pub fn load_rounds<S: Store>(
    stripe: &mut Stripe<S>,
    pages: u32,
    room: u32,
    rounds: u64,
    buf: &mut [u8],
) -> u64
    requires region { HasRegion stripe.old.setup 0 pages }
    requires some { 0 < length buf.old }
    requires inside { room + length buf.old ≤ stripe.old.setup.page_size }
    ensures on { CoreGoesOn stripe.old stripe.new }
{
    let mut hits: u64 = 0;
    for _ in 0..rounds {
        hits = hits.saturating_add(load_each(stripe, pages, room, buf));
    }
    hits
}

/// Stores to a part of each page, so many rounds, and counts the hits.
#[tactic(auto, using(crate::proofs::Regions::still, crate::proofs::Going::goes_twice))]
pub fn save_rounds<S: Store>(
    stripe: &mut Stripe<S>,
    pages: u32,
    room: u32,
    rounds: u64,
    bytes: &[u8],
) -> u64
    requires region { HasRegion stripe.old.setup 0 pages }
    requires some { 0 < length bytes.now }
    requires inside { room + length bytes.now ≤ stripe.old.setup.page_size }
    ensures on { CoreGoesOn stripe.old stripe.new }
{
    let mut hits: u64 = 0;
    for _ in 0..rounds {
        hits = hits.saturating_add(save_each(stripe, pages, room, bytes));
    }
    hits
}
