//! Which calls are to fail.
ghost use Rattle.std.specs.Prelude.{◌≡◌, None};
ghost use Rattle.lib_types.specs.Counts.{raised};
ghost use Rattle.tree_face.specs.Failures.{is_due, after_call, stopping_after};
ghost use Rattle.root_folder.specs.Failures.{plan_of};

/// The plan of failures, and how many failures there were.
#[derive(Drop)]
pub struct Failures {
    fail: Vec<u64>,
    calls: u64,
    stop: Option<u64>,
    pub faults: u64,
    pub read_faults: u64,
}

impl Failures {
    /// The calls with these numbers fail, counted from 0.
    pub fn new(fail: Vec<u64>) -> Failures
        ensures plan { plan_of result ≡ record { fail = fail.items; next = 0; left = None } }
        ensures faults { (result.faults ≡ 0) × (result.read_faults ≡ 0) }
    {
        Failures {
            fail,
            calls: 0,
            stop: None,
            faults: 0,
            read_faults: 0,
        }
    }

    /// Lets the next `calls` writing calls pass, and makes every call after them fail.
    pub fn stop_after(&mut self, calls: u64)
        ensures plan { plan_of self.new ≡ stopping_after calls (plan_of self.old) }
        ensures faults { (self.new.faults ≡ self.old.faults) × (self.new.read_faults ≡ self.old.read_faults) }
    {
        self.stop = Some(calls);
    }

    /// Counts a fault of a writing call.
    pub fn add_fault(&mut self)
        ensures plan { plan_of self.new ≡ plan_of self.old }
        ensures faults { (self.new.faults ≡ raised self.old.faults 1) × (self.new.read_faults ≡ self.old.read_faults) }
    {
        self.faults = self.faults.saturating_add(1);
    }

    /// Counts a fault of a call that reads.
    pub fn add_read_fault(&mut self)
        ensures plan { plan_of self.new ≡ plan_of self.old }
        ensures faults { (self.new.faults ≡ raised self.old.faults 1) × (self.new.read_faults ≡ raised self.old.read_faults 1) }
    {
        self.faults = self.faults.saturating_add(1);
        self.read_faults = self.read_faults.saturating_add(1);
    }

    /// Counts a call, and returns whether it is to fail.
    pub fn is_due(&mut self, writes: bool) -> bool
        ensures due { result ≡ is_due (plan_of self.old) }
        ensures plan { plan_of self.new ≡ after_call writes (plan_of self.old) }
        ensures faults { (self.new.faults ≡ self.old.faults) × (self.new.read_faults ≡ self.old.read_faults) }
    {
        let call = self.calls;
        self.calls = call.saturating_add(1);
        let stopped = self.stop == Some(0);
        if let Some(left) = self.stop {
            if writes && left > 0 {
                self.stop = Some(left - 1);
            }
        }
        stopped || self.fail.contains(&call)
    }
}
