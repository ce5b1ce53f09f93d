//! A gate at which two units wait for each other.
use std::hint::spin_loop;
use std::sync::atomic::{AtomicBool, Ordering};
use world_io::Gate;

/// How often a unit looks whether the other one was entered.
const LOOKS: u32 = 100_000_000;

/// A gate that holds unit 0 until unit 1 was entered, and unit 1 until unit 0 was. It keeps whether
/// each of them came, and whether one of them waited in vain.
#[derive(Drop)]
pub struct MeetingGate {
    first: AtomicBool,
    second: AtomicBool,
    is_missed: AtomicBool,
}

impl MeetingGate {
    /// A gate that nothing has entered.
    pub fn new() -> MeetingGate {
        MeetingGate {
            first: AtomicBool::new(false),
            second: AtomicBool::new(false),
            is_missed: AtomicBool::new(false),
        }
    }

    /// Whether both units were held at once.
    pub fn have_met(&self) -> bool {
        let have_come = self.first.load(Ordering::SeqCst) && self.second.load(Ordering::SeqCst);
        have_come && !self.is_missed.load(Ordering::SeqCst)
    }

    /// Waits until the other unit was entered, or keeps that it was not.
    fn wait_for(&self, other: &AtomicBool) {
        for _ in 0..LOOKS {
            if other.load(Ordering::SeqCst) {
                return;
            }
            spin_loop();
        }
        self.is_missed.store(true, Ordering::SeqCst);
    }
}

impl Gate for MeetingGate {
    fn enter(&self, unit: u32) {
        match unit {
            0 => {
                self.first.store(true, Ordering::SeqCst);
                self.wait_for(&self.second);
            }
            1 => {
                self.second.store(true, Ordering::SeqCst);
                self.wait_for(&self.first);
            }
            _ => {}
        }
    }
}
