//! A disk: what a read gives, and what a crash may leave.
ghost use Rattle.std.specs.Prelude.{◌≡◌, ◌+◌, ◌<◌, ◌≤◌, ◌^◌, max, List, ℕ, Option, Some, length, take, option_map, is_some, slice_range, OnOk, IfSome};
ghost use Rattle.cx_disk.specs.Disk.{written, Torn, TornCut, IsAfterStep, OnlyTold, Elapses, HasCause};

/// The call failed.
#[derive(Clone, Copy, Debug, PartialEq, Eq)]
pub struct Failed;

pub trait Disk {
    /// What a read gives, none where that isn't known.
    ghost seen: { Self → Option (List ℕ) };

    /// What a crash at this moment may leave.
    ghost may_leave: { Self → List ℕ → Type 0 };

    /// The moment, as a number that doesn't fall.
    ghost moment: { Self → ℕ };

    /// What a crash at some moment from that one on might have left, during a call or between two.
    ghost left_since: { Self → ℕ → List ℕ → Type 0 };

    /// How often the disk has failed.
    ghost faults: { Self → ℕ };

    /// The length, which is known of every disk.
    ghost size: { Self → ℕ };

    fn len(&self) -> u64
        ensures { result ≡ size self.now };

    /// Fills the buffer from a place on.
    fn read(&mut self, at: u64, buf: &mut [u8]) -> Result<(), Failed>
        requires { at + length buf.old ≤ size self.old }
        ensures bytes { OnOk result
            (IfSome (seen self.old) (λ file. buf.new ≡ slice_range file at (at + length buf.old))) }
        ensures seen { seen self.new ≡ seen self.old }
        ensures size { size self.new ≡ size self.old }
        ensures crash { (c : List ℕ) → may_leave self.new c → may_leave self.old c }
        ensures time { Elapses (moment self.old) (moment self.new) (left_since self.old)
            (left_since self.new) (may_leave self.new) }
        ensures cause { HasCause (faults self.old) (faults self.new) result };

    /// Writes over what is there, and past the end.
    fn write_at(&mut self, at: u64, bytes: &[u8]) -> Result<(), Failed>
        requires { at ≤ size self.old }
        ensures written { OnOk result
            (seen self.new ≡ option_map (written at bytes.now) (seen self.old)) }
        ensures tells { is_some (seen self.new) ≡ is_some (seen self.old) }
        ensures size { OnOk result (size self.new ≡ max (size self.old) (at + length bytes.now)) }
        ensures crash { IsAfterStep (Torn at (length bytes.now)) (may_leave self.old)
            (may_leave self.new) }
        ensures time { Elapses (moment self.old) (moment self.new) (left_since self.old)
            (left_since self.new) (may_leave self.new) }
        ensures cause { HasCause (faults self.old) (faults self.new) result };

    /// Cuts the bytes to a length.
    fn cut(&mut self, at: u64) -> Result<(), Failed>
        requires { at ≤ size self.old }
        ensures cut { OnOk result (seen self.new ≡ option_map (take at) (seen self.old)) }
        ensures tells { is_some (seen self.new) ≡ is_some (seen self.old) }
        ensures size { OnOk result (size self.new ≡ at) }
        ensures crash { IsAfterStep (TornCut at) (may_leave self.old) (may_leave self.new) }
        ensures time { Elapses (moment self.old) (moment self.new) (left_since self.old)
            (left_since self.new) (may_leave self.new) }
        ensures cause { HasCause (faults self.old) (faults self.new) result };

    /// After it, a crash leaves what a read gives.
    fn sync(&mut self) -> Result<(), Failed>
        ensures durable { OnOk result (OnlyTold (seen self.old) (may_leave self.new)) }
        ensures seen { seen self.new ≡ seen self.old }
        ensures size { size self.new ≡ size self.old }
        ensures crash { (c : List ℕ) → may_leave self.new c → may_leave self.old c }
        ensures time { Elapses (moment self.old) (moment self.new) (left_since self.old)
            (left_since self.new) (may_leave self.new) }
        ensures cause { HasCause (faults self.old) (faults self.new) result };

    /// The bytes that are known are as many as the length.
    ghost told_size: { (disk : Self) (file : List ℕ) → seen disk ≡ Some file
        → length file ≡ size disk };

    /// What a read gives is one of what a crash may leave, also after a call that failed.
    ghost told_is_left: { (disk : Self) (file : List ℕ) → seen disk ≡ Some file
        → may_leave disk file };

    ghost size_fits: { (disk : Self) → size disk < 2 ^ 63 };

    /// This moment is one of those since an earlier one.
    ghost counts_now: { (disk : Self) (t : ℕ) (c : List ℕ) → t ≤ moment disk → may_leave disk c
        → left_since disk t c };

    /// Since this moment there is no other.
    ghost only_now: { (disk : Self) (c : List ℕ) → left_since disk (moment disk) c
        → may_leave disk c };
}
