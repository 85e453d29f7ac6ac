//! A stripe by hand.
use std::process::Abort;
use std::test::Fail;
use store_trait::MemLane;
use stripe_core::{Counts, Layout, List, NewStripe, Next, Stripe, StripeConfig};

#[test]
fn a_stripe_without_regions_has_nothing_to_do(rt: HostRuntime) -> Result<(), Fail> {
    let layout = Layout::new(64, 1, 2)?;
    let config = StripeConfig {
        layout,
        number: 0,
        faults: 2,
        high: 90,
        low: 70,
        shapes: List::new(rt.alloc()),
    };
    let none: List<MemLane> = List::new(rt.alloc());
    let stripe = match Stripe::new(rt.alloc(), &config, none) {
        Ok(stripe) => stripe,
        Err(NewStripe::OutOfMemory { lanes: _ }) => {
            return Err(Fail::new("no memory for two frames"));
        }
    };
    assert_eq!(rt; stripe.next(), Next::Nothing);
    assert_eq!(rt; stripe.resident(), 0);
    assert_eq!(rt; stripe.events(), 0);
    assert_eq!(rt; stripe.evicting(), false);
    assert_eq!(rt; stripe.counts(), Counts::none());
    assert_eq!(rt; stripe.into_lanes().len(), 0);
    Ok(())
}
