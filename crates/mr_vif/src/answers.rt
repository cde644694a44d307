//! What is kept beside a list of vifs.

ghost use Rattle.std.specs.Prelude.{◌≡◌, ℕ, ◌<◌, ◌++◌, false, if◌then◌else◌, Some, List, [], ◌∷◌};
ghost use Rattle.std.specs.Prelude.{IsTrue, IsNone};
ghost use Rattle.mr_base.specs.declared.vif_record.VifRecord.{VifRecord};
ghost use Rattle.mr_model.specs.VifList.{has_vif, higher, register_vif};
ghost use Rattle.mr_vif.specs.Keeping.{AreHighest, AreAnswers};

use mr_base::VifRecord;

/// How many vifs there may be (ipmr.c, MAXVIFS).
pub const VIFS: usize = 32;

/// The device numbers with a place of their own: 0 for the register vif, and 64 devices.
pub const DEVICES: usize = 65;

/// The answers of a list of vifs, each in its place; those that every packet asks for stand
/// together.
#[derive(Debug, Drop)]
pub struct Answers {
    /// A bit for each vif.
    pub present: u32,
    /// The highest vif on each device.
    pub highest: [Option<u8>; DEVICES],
    /// The vif with each index.
    pub at: [Option<VifRecord>; VIFS],
    /// The index of the register vif.
    pub register: Option<u8>,
    /// One more than the highest vif, or 0.
    pub end: u8,
}

/// The greater of the two, where there are two.
pub fn higher(i: u8, other: Option<u8>) -> Option<u8>
    ensures { result ≡ higher i other }
{
    match other {
        None => Some(i),
        Some(j) => Some(i.max(j)),
    }
}

/// The highest vif on each device, with one vif more.
fn raise(highest: &mut [Option<u8>; DEVICES], vif: &VifRecord)
    ensures { (vifs : List VifRecord) → AreHighest highest.old vifs →
        AreHighest highest.new (vifs ++ vif.now ∷ []) }
{
    let dev = vif.dev as usize;
    if dev < DEVICES {
        highest[dev] = higher(vif.vif, highest[dev]);
    }
}

/// The index of the register vif, with one vif more.
fn register_with(register: Option<u8>, vif: &VifRecord) -> Option<u8>
    ensures { result ≡ (if vif.now.register then Some vif.now.vif else register) }
{
    if vif.register {
        Some(vif.vif)
    } else {
        register
    }
}

impl Answers {
    /// Those of no vif.
    pub fn new() -> Self
        ensures { AreAnswers result [] }
    {
        Answers {
            present: 0,
            highest: [None; DEVICES],
            at: [None; VIFS],
            register: None,
            end: 0,
        }
    }

    /// Those of one vif more, behind the others.
    pub fn add(&mut self, vif: VifRecord)
        requires { vif.vif < 32 }
        ensures { (vifs : List VifRecord) → has_vif vifs vif.vif ≡ false →
            (IsTrue vif.register → IsNone (register_vif vifs)) →
            AreAnswers self.old vifs →
            AreAnswers self.new (vifs ++ vif ∷ []) }
    {
        self.at[usize::from(vif.vif)] = Some(vif);
        raise(&mut self.highest, &vif);
        self.register = register_with(self.register, &vif);
        self.end = self.end.max(vif.vif + 1);
        self.present |= 1 << vif.vif;
    }
}
