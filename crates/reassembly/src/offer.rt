//! Calls that offer a fragment.
use crate::assembly::Assembly;
use crate::id::DatagramId;
use crate::odds::odds;
use crate::piece::{Offered, Piece};
use crate::progress::Progress;
use crate::rows::own_row;
use crate::take::take;
use linked_table::{Hashed, Slot};
use retain_store::{ChainId, blocks_touched};
use rule_book::Rule;

impl Assembly {
    ghost use Rattle.std.specs.Prelude.{◌≡◌, ◌≤◌, ℕ, Bool, List, ◌∷◌, length, nat_le, false, None};
    ghost use Rattle.linked_table.specs.EntryTable.{IsIn, HasNone, Wherever};
    ghost use Rattle.norm_settings.specs.SettingValues.{PlainSettings};
    ghost use Rattle.retain_store.specs.Maps.{chain_of, missing};
    ghost use Rattle.reassembly.specs.DatagramFragments.{fragment_of, IsPiece, is_whole};
    ghost use Rattle.reassembly.specs.Calls.{Call, Gathered, gathered, pieces_in};
    ghost use Rattle.reassembly.specs.RuleRows.{ends_otherwise, own_rows, first_row, answer_by, answer_at, offered_at, view_in, view_of, is_none_held, call_of, Carries, IsShort, JoinsPieces};
    ghost use Rattle.reassembly.specs.TableAndStore.{HoldsFor};
    ghost use Rattle.reassembly.specs.working.FragmentAnswers.{IsAnswered};
    ghost use Rattle.reassembly.specs.AssemblyState.{IsFor, KeepsFor, StandsFor, last_time};
    ghost use Rattle.wire_base.specs.declared.limits.TheConstants.{MAX_PAYLOAD};

    // Takes a fragment that no rule drops, in the slot of its datagram.
    #[inline(always)]
    fn accept(
        &mut self,
        slot: Slot,
        progress: &Progress,
        piece: &Piece<'_>,
        buf: &mut [u8],
    ) -> Offered
        requires inside { IsIn self.old.table.entries slot }
        requires keyed { Wherever self.old.table.entries slot (λ e. e.key ≡ (fragment_of piece.now).id) }
        requires valued { Wherever self.old.table.entries slot (λ e. e.value ≡ progress.now) }
        requires piece { IsPiece (fragment_of piece.now) }
        requires own { first_row (own_rows (fragment_of piece.now)) ≡ None }
        requires ends { ends_otherwise progress.now.total progress.now.reach (fragment_of piece.now) ≡ false }
        requires room { let p = fragment_of piece.now in missing (chain_of self.old.store slot.0) p.offset (length p.octets) ≤ self.old.store.free }
        requires buffer { MAX_PAYLOAD ≤ length buf.old }
        ensures answered { let p = fragment_of piece.now in (now : ℕ) (gs : List Gathered) → HoldsFor gs self.old.table.entries self.old.store →
            IsAnswered now gs p (answer_by None (is_whole (p ∷ pieces_in gs p.id))) result buf.old buf.new self.new }
        ensures short { IsShort result }
        ensures opened { (settings : PlainSettings) → IsFor settings self.old → IsFor settings self.new }
    {
        let _count = self.table.len();
        let chain = ChainId(slot.0);
        let next = take(&mut self.store, chain, progress, piece);
        match next.whole() {
            Some(whole) => {
                self.store.copy_out(chain, 0, &mut buf[..whole.len]);
                self.store.forget_all(chain);
                let _pair = self.table.remove(slot);
                Offered::Done(whole)
            }
            None => {
                let _before = self.table.put(slot, next);
                Offered::Held
            }
        }
    }

    // Takes a fragment of a datagram with held fragments.
    #[inline(always)]
    fn join(&mut self, slot: Slot, piece: &Piece<'_>, buf: &mut [u8]) -> Offered
        requires inside { IsIn self.old.table.entries slot }
        requires keyed { Wherever self.old.table.entries slot (λ e. e.key ≡ (fragment_of piece.now).id) }
        requires piece { IsPiece (fragment_of piece.now) }
        requires own { first_row (own_rows (fragment_of piece.now)) ≡ None }
        requires buffer { MAX_PAYLOAD ≤ length buf.old }
        ensures answered { let p = fragment_of piece.now in (now : ℕ) (gs : List Gathered) (full : Bool) → HoldsFor gs self.old.table.entries self.old.store →
            is_none_held (pieces_in gs p.id) ≡ false →
            IsAnswered now gs p (answer_at (view_in gs full self.old.store.free p) p) result buf.old buf.new self.new }
        ensures short { IsShort result }
        ensures opened { (settings : PlainSettings) → IsFor settings self.old → IsFor settings self.new }
    {
        let _count = self.table.len();
        let progress = *self.table.at(slot);
        let chain = ChainId(slot.0);
        if let Some(rule) = odds(&self.store, chain, &progress, piece) {
            self.forget(slot);
            return Offered::Drop(rule);
        }
        let _held = self.store.held(chain);
        let fits = self
            .store
            .has_room(chain, u64::from(piece.offset), piece.len());
        if !fits {
            return Offered::Drop(Rule::FRoom);
        }
        self.accept(slot, &progress, piece, buf)
    }

    // Takes the first fragment of a datagram.
    #[inline(always)]
    fn begin(
        &mut self,
        now: u32,
        id: &Hashed<DatagramId>,
        piece: &Piece<'_>,
        buf: &mut [u8],
    ) -> Offered
        requires absent { HasNone self.old.table.entries (fragment_of piece.now).id }
        requires keyed { id.now.key ≡ (fragment_of piece.now).id }
        requires piece { IsPiece (fragment_of piece.now) }
        requires own { first_row (own_rows (fragment_of piece.now)) ≡ None }
        requires buffer { MAX_PAYLOAD ≤ length buf.old }
        ensures answered { let p = fragment_of piece.now in (gs : List Gathered) → HoldsFor gs self.old.table.entries self.old.store →
            IsAnswered now gs p (answer_at (view_in gs (nat_le self.old.table.max (length gs)) self.old.store.free p) p) result buf.old buf.new self.new }
        ensures short { IsShort result }
        ensures opened { (settings : PlainSettings) → IsFor settings self.old → IsFor settings self.new }
    {
        let count = self.table.len();
        let max = self.table.max();
        if count == max {
            return Offered::Drop(Rule::FMany);
        }
        let need = blocks_touched(u64::from(piece.offset), piece.len());
        let free = self.store.free();
        if need > free {
            return Offered::Drop(Rule::FRoom);
        }
        let progress = Progress::none(now);
        let Ok(slot) = self.table.insert_hashed(id, progress) else {
            unreachable!()
        };
        let _count = self.table.len();
        self.accept(slot, &progress, piece, buf)
    }

    // Takes a fragment, whether or not other fragments of its datagram are held.
    #[inline(always)]
    fn judge(&mut self, now: u32, piece: &Piece<'_>, buf: &mut [u8]) -> Offered
        requires piece { IsPiece (fragment_of piece.now) }
        requires buffer { MAX_PAYLOAD ≤ length buf.old }
        ensures answered { let p = fragment_of piece.now in (settings : PlainSettings) (calls : List Call) → KeepsFor settings self.old calls →
            IsAnswered now (gathered settings.frag_time calls) p (answer_at (view_of settings calls p) p) result buf.old buf.new self.new }
        ensures short { IsShort result }
        ensures opened { (settings : PlainSettings) → IsFor settings self.old → IsFor settings self.new }
    {
        if let Some(rule) = own_row(piece) {
            return Offered::Drop(rule);
        }
        let _count = self.table.len();
        let _free = self.store.free();
        let id = self.table.hashed(piece.id());
        match self.table.find_hashed(&id) {
            Some(slot) => self.join(slot, piece, buf),
            None => self.begin(now, &id, piece, buf),
        }
    }

    /// Takes a fragment: it is held, it completes its datagram, whose octets are then at the front
    /// of the buffer, or a rule drops it. Rules 15 to 22. F_END and F_CLASH forget the datagram;
    /// under another rule nothing changes.
    #[inline(always)]
    pub fn offer(&mut self, now: u32, piece: &Piece<'_>, buf: &mut [u8]) -> Offered
        requires piece { IsPiece (fragment_of piece.now) }
        requires buffer { MAX_PAYLOAD ≤ length buf.old }
        requires late { last_time self.old ≤ now }
        ensures answer { let p = fragment_of piece.now in (settings : PlainSettings) (calls : List Call) → StandsFor settings self.old calls →
            result ≡ offered_at (view_of settings calls p) p }
        ensures octets { let p = fragment_of piece.now in (settings : PlainSettings) (calls : List Call) → StandsFor settings self.old calls →
            Carries result buf.old buf.new (p ∷ (view_of settings calls p).pieces) }
        ensures short { IsShort result }
        ensures pieces { let p = fragment_of piece.now in (settings : PlainSettings) (calls : List Call) → StandsFor settings self.old calls →
            JoinsPieces result buf.new (p ∷ (view_of settings calls p).pieces) }
        ensures stands { let p = fragment_of piece.now in (settings : PlainSettings) (calls : List Call) → StandsFor settings self.old calls →
            StandsFor settings self.new (call_of settings calls now p ∷ calls) }
        ensures last { last_time self.new ≡ now }
    {
        let answer = self.judge(now, piece, buf);
        self.last = now;
        answer
    }
}
