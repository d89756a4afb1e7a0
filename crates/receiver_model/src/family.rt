//! Four receivers of one connection side by side, one for each policy.
ghost use Rattle.std.specs.Prelude.{◌≡◌, ◌↔◌, ◌≤◌, ℕ, ℤ, List, ◌∷◌, ◌++◌, [], IsTrue, IfOk, OnOk, OnErr};
ghost use Rattle.wire_base.specs.Ipv4 as ip;
ghost use Rattle.wire_base.specs.Plain.{Plain};
ghost use Rattle.receiver_model.specs.FamilyAgreement.{TellOneStream};
ghost use Rattle.receiver_model.specs.Families.{fresh_family, stream_of, AllInTime, AllStandFor, EachTakes, EachTwoAgree, StreamsAgree};
ghost use Rattle.receiver_model.specs.working.FamilyMarks.{EachGoesBack};

use crate::agreement::agree_with_ends;
use crate::policy::Policy;
use crate::stream::Stream;
use edge_io::NoMemory;
use std::alloc::Global;
use std::marker::Model;

/// One stream for each policy.
#[derive(Drop)]
pub struct Family {
    first: Stream,
    newest: Stream,
    left: Stream,
    right: Stream,
}

impl Model for Family {
    ghost use Rattle.receiver_model.specs.Families.{FamilyState};

    ghost Value = { FamilyState };

    ghost view = { λ f. record { first = f.first; newest = f.newest; left = f.left; right = f.right } };
}

impl Family {
    /// Creates four receivers without segments. `base` is the sequence number of the octet at
    /// offset 0, and the streams begin at the offset `start`.
    pub fn open(alloc: Global, base: u32, start: u32) -> Result<Family, NoMemory>
        ensures fresh { IfOk result (λ f. f ≡ fresh_family base start) }
        ensures stands { IfOk result (λ f. (distance : ℕ) → AllStandFor distance base start f []) }
    {
        Ok(Family {
            first: Stream::open(alloc, Policy::First, base, start)?,
            newest: Stream::open(alloc, Policy::Newest, base, start)?,
            left: Stream::open(alloc, Policy::Left, base, start)?,
            right: Stream::open(alloc, Policy::Right, base, start)?,
        })
    }

    /// Gives a packet to each. After an error all four are as before.
    pub fn take(&mut self, bytes: &[u8]) -> Result<(), NoMemory>
        requires plain { Plain 0 bytes.now }
        requires tcp { ip.protocol bytes.now ≡ 6 }
        ensures each { OnOk result (EachTakes bytes.now self.old self.new) }
        ensures stands { OnOk result ((distance base start : ℕ) (frames : List (List ℕ)) →
            AllStandFor distance base start self.old frames → AllStandFor distance base start self.new (frames ++ bytes.now ∷ [])) }
        ensures err { OnErr result (self.new ≡ self.old) }
    {
        let first = self.first.mark();
        let newest = self.newest.mark();
        let left = self.left.mark();
        let right = self.right.mark();
        match self.offer(bytes) {
            Ok(()) => Ok(()),
            Err(fault) => {
                self.first.go_back(&first);
                self.newest.go_back(&newest);
                self.left.go_back(&left);
                self.right.go_back(&right);
                Err(fault)
            }
        }
    }

    // Gives a packet to one after another, until one cannot allocate memory.
    fn offer(&mut self, bytes: &[u8]) -> Result<(), NoMemory>
        requires plain { Plain 0 bytes.now }
        requires tcp { ip.protocol bytes.now ≡ 6 }
        ensures each { OnOk result (EachTakes bytes.now self.old self.new) }
        ensures back { EachGoesBack self.old self.new }
    {
        self.first.take(bytes)?;
        self.newest.take(bytes)?;
        self.left.take(bytes)?;
        self.right.take(bytes)
    }

    fn stream(&self, policy: Policy) -> &Stream
        ensures { result.now ≡ stream_of self.now policy }
    {
        match policy {
            Policy::First => &self.first,
            Policy::Newest => &self.newest,
            Policy::Left => &self.left,
            Policy::Right => &self.right,
        }
    }

    /// Returns the octets that the receiver of a policy has given to its reader.
    pub fn octets(&self, policy: Policy) -> &[u8]
        ensures { let stream = stream_of self.now policy in result.now ≡ stream.octets }
    {
        self.stream(policy).octets()
    }

    /// Returns whether its stream has reached the offset of its FIN.
    pub fn ended(&self, policy: Policy) -> bool
        ensures { let stream = stream_of self.now policy in result ≡ stream.ended }
    {
        self.stream(policy).ended()
    }

    /// Returns whether each two agree: they do if frames that describe one stream reached all four
    /// in order and in time.
    pub fn agree(&self) -> bool
        ensures decides { IsTrue result ↔ EachTwoAgree self.now }
        ensures one_stream { (hops distance base start : ℕ) (places : List ℤ) (frames : List (List ℕ)) → distance ≤ hops →
            TellOneStream hops base places frames → AllInTime places distance base start frames self.now → IsTrue result }
    {
        let first_newest = streams_agree(&self.first, &self.newest);
        let first_left = streams_agree(&self.first, &self.left);
        let first_right = streams_agree(&self.first, &self.right);
        let newest_left = streams_agree(&self.newest, &self.left);
        let newest_right = streams_agree(&self.newest, &self.right);
        let left_right = streams_agree(&self.left, &self.right);
        all_six(
            first_newest,
            first_left,
            first_right,
            newest_left,
            newest_right,
            left_right,
        )
    }
}

fn all_six(a: bool, b: bool, c: bool, d: bool, e: bool, f: bool) -> bool
    ensures { IsTrue result ↔ (IsTrue a × IsTrue b × IsTrue c × IsTrue d × IsTrue e × IsTrue f) }
{
    a && b && c && d && e && f
}

fn streams_agree(a: &Stream, b: &Stream) -> bool
    ensures { IsTrue result ↔ StreamsAgree a.now b.now }
{
    agree_with_ends(a.octets(), a.ended(), b.octets(), b.ended())
}
