//! Gates that see in which order units are read.
use std::sync::atomic::{AtomicBool, AtomicU64, Ordering};
use world_io::Gate;

/// A gate that keeps the numbers that it was told, as digits from 1.
#[derive(Drop)]
pub struct Told {
    digits: AtomicU64,
}

impl Told {
    /// A gate that was told nothing.
    pub fn new() -> Told {
        Told {
            digits: AtomicU64::new(0),
        }
    }

    /// The digits of the numbers that it was told, the first one first.
    pub fn digits(&self) -> u64 {
        self.digits.load(Ordering::SeqCst)
    }
}

impl Gate for Told {
    fn enter(&self, unit: u32) {
        let before = self.digits.load(Ordering::SeqCst);
        let digit = u64::from(unit).wrapping_add(1);
        self.digits.store(
            before.wrapping_mul(10).wrapping_add(digit),
            Ordering::SeqCst,
        );
    }
}

/// How often the gate below looks.
const LOOKS: u32 = 100_000_000;

/// A gate that holds unit 0 until unit 1 was entered, and keeps whether it saw that.
#[derive(Drop)]
pub struct HoldingGate {
    entered: AtomicBool,
    seen: AtomicBool,
}

impl HoldingGate {
    /// A gate that nothing has entered.
    pub fn new() -> HoldingGate {
        HoldingGate {
            entered: AtomicBool::new(false),
            seen: AtomicBool::new(false),
        }
    }

    /// Whether unit 1 was entered while unit 0 was held.
    pub fn has_seen(&self) -> bool {
        self.seen.load(Ordering::SeqCst)
    }
}

impl Gate for HoldingGate {
    fn enter(&self, unit: u32) {
        if unit == 1 {
            self.entered.store(true, Ordering::SeqCst);
            return;
        }
        for _ in 0..LOOKS {
            if self.entered.load(Ordering::SeqCst) {
                self.seen.store(true, Ordering::SeqCst);
                return;
            }
        }
    }
}
