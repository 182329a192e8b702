//! The laws of the plain machine and of packet numbers. A law is a function that does nothing: its
//! contract is the law, and a caller learns it by the call. The laws hold of the definitions in
//! `specs/` alone.

ghost use Rattle.std.specs.Prelude.{◌≡◌, ◌↔◌, ℕ, ◌+◌, ◌-◌, ◌<◌, ◌≤◌, [], length, true, slice_get};
ghost use Rattle.std.specs.FinSet.{contains};
ghost use Rattle.chaos_packet.specs.Item.{ItemView};
ghost use Rattle.chaos_packet.specs.Number.{num, off};
ghost use Rattle.chaos_lab.specs.declared.side.Side.{Side};
ghost use Rattle.chaos_lab.specs.Machine.{Machine, Event, Schedule, other, FirstMissing, Step, Run, Reached, fresh_span, greatest_window};
ghost use Rattle.chaos_lab.specs.Machine.Phase.{RfcSent, RfcReceived, Open};
ghost use Rattle.chaos_lab.specs.Machine.Event.{ReadAt};
ghost use Rattle.chaos_lab.specs.Numbers.{told_num};
ghost use Rattle.chaos_packet.specs.Begins.{Begins};
ghost use Rattle.chaos_lab.specs.MachineHello.{SomethingIsAsked, SomethingIsRead};
ghost use Rattle.chaos_lab.specs.LabHello.{LabCanSettle, LabsCanOpen, ReportComes, RoundsCome};
ghost use Rattle.chaos_lab.specs.Plays.{KeepsPlay, KeepsQuiet, MayBegin, MayReplace, ReadsBegin, RfcIsFirst, AskingWaits, UnaskedIsNew, KnowsSides, OthersNameIndex, OpenHasRead, UnreadIsAlone, ComesHeld};
ghost use Rattle.chaos_lab.specs.Law.{writer, reader, IsThere, DeliversInside, RunUnclosed, ReadsItem, ReadsNext, CanHappen};

/// The delivery law, for each direction, over every schedule of deliveries, losses, repeats and
/// orders of fresh copies.
///
/// Its premises stand in `Reached`: both caps of each end are 1 to 64, copies come from these two
/// ends alone, and each is fresh when it is delivered. It promises nothing of time: not that a copy
/// is ever delivered, nor that a waiting writer is served.
pub fn law_delivery()
    // What was read is a prefix of what was written, item by item.
    ensures beginning { (m : Machine) (x : Side) → Reached m →
        Begins (reader m x).read (writer m x).written }
    // An acknowledgement counts no more than was read, and no more than the receipt does.
    ensures acknowledged { (m : Machine) (x : Side) →
        Reached m → ((writer m x).acknowledged ≤ length (reader m x).read)
        × ((writer m x).acknowledged ≤ (writer m x).receipted) }
    // A receipt counts no more than arrived without a gap, which is no more than was written.
    ensures receipted { (m : Machine) (x : Side) (f : ℕ) → Reached m → FirstMissing (reader m x) f →
        ((writer m x).receipted ≤ f) × (f ≤ length (writer m x).written) }
    // There is a first missing index.
    ensures first_missing { (m : Machine) (x : Side) → Reached m →
        (f : ℕ) × FirstMissing (reader m x) f }
    // What is written and not acknowledged is at most the writer's cap.
    ensures room { (m : Machine) (x : Side) → Reached m →
        length (writer m x).written - (writer m x).acknowledged ≤ (writer m x).send_cap }

    // An item that is delivered to an open end, inside the window that this end announces, was read
    // or has arrived.
    ensures arrives { (m n : Machine) (x : Side) (i : ℕ) → Reached m → DeliversInside m x i n →
        IsThere (reader n x) i }
    // What has arrived is never lost, whatever window is announced later.
    ensures arrivals_stay { (m n : Machine) (x : Side) (events : Schedule) (i : ℕ) →
        Reached m → Run m events n →
        contains (reader m x).arrived i ≡ true → contains (reader n x).arrived i ≡ true }
    // What was written and what was read stays as it is, and only more comes behind it.
    ensures items_stay { (m n : Machine) (x : Side) (events : Schedule) →
        Reached m → Run m events n → Begins (writer m x).written (writer n x).written
        × Begins (reader m x).read (reader n x).read }
    // Once an end was open, and until its own user closes it, a read gives the next item exactly
    // where that item has arrived.
    ensures reads { (l m n : Machine) (x : Side) (events : Schedule) →
        Reached l → (reader l x).phase ≡ Open → RunUnclosed (other x) l events m →
        Step m (ReadAt (other x)) n → ReadsNext (writer m x) (reader m x) (reader n x) }
    // So an item that was delivered inside the window is what a read gives in its turn, whatever
    // happened since.
    ensures in_turn { (l m n o : Machine) (x : Side) (events : Schedule) (i : ℕ) →
        Reached l → DeliversInside l x i m → RunUnclosed (other x) m events n →
        length (reader n x).read ≡ i → Step n (ReadAt (other x)) o →
        (item : ItemView) × (slice_get (writer l x).written i ≡ Some item)
        × ReadsItem item (reader n x) (reader o x) }

    // Every plain event can happen, but for the delivery of a copy that wasn't sent or isn't fresh.
    ensures happens { (m : Machine) (event : Event) → CanHappen m event →
        (n : Machine) × Step m event n }
{}

/// The law of what an end has written and read, by its phase, over the plain machine alone.
pub fn law_phases()
    // B never asks.
    ensures answers { (m : Machine) → Reached m → ¬ (m.b.phase ≡ RfcSent) }
    // While B is asked, it has neither written nor read anything.
    ensures asked { (m : Machine) → Reached m → m.b.phase ≡ RfcReceived →
        (m.b.written ≡ []) × (m.b.read ≡ []) }
    // An open end has written its item 0, and has read the other's item 0.
    ensures met { (m : Machine) (x : Side) → Reached m → (writer m x).phase ≡ Open →
        (1 ≤ length (writer m x).written) × (1 ≤ length (writer m x).read) }
{}

/// The law of packet numbers: the numbers of items near one another differ, modulo 65536, as the
/// items' indices do. So an end that compares the 16-bit numbers of fresh packets decides as the
/// plain machine does, which compares true counts.
///
/// An item or a count of a copy lies at most a window, 64, behind all that was written when the
/// copy was sent. So while the copy is fresh it lies less than 32,640 + 64 behind.
pub fn law_numbers()
    // An item at most the greatest window, 64, ahead has a number just as far ahead.
    ensures ahead { (b n x : ℕ) → x ≤ greatest_window → off (num b (n + x)) (num b n) ≡ x }
    // An item up to 32,703 behind, as far as an item of a fresh copy can be, has a number at least
    // half the circle ahead.
    ensures behind { (b n x : ℕ) → 0 < x → x < fresh_span + greatest_window →
        32767 < off (num b n) (num b (n + x)) }
    // So a count that comes is taken as new exactly where it is no smaller than the present count.
    // Its number then lies between the numbers of the present count and of all that was written.
    ensures told { (b told count written : ℕ) →
        count ≤ written → written ≤ count + greatest_window → told ≤ written →
        written < told + fresh_span + greatest_window →
        (off (told_num b told) (told_num b count) ≤ off (told_num b written) (told_num b count))
        ↔ (count ≤ told) }
    // Then the number is as far ahead as the count is.
    ensures told_by { (b told count : ℕ) → count ≤ told → told ≤ count + greatest_window →
        off (told_num b told) (told_num b count) ≡ told - count }
{}

/// The limits as numerals.
pub fn law_limits()
    // A copy is fresh before either end has written 32,640 items more than when the copy was sent.
    ensures fresh { fresh_span ≡ 32640 }
    // The greatest window is 64 items.
    ensures window { greatest_window ≡ 64 }
{}

/// The law of what an end of a laboratory can play. Use it for a connection that differs from a
/// laboratory's in its names alone: the laboratory may go on as the connection does.
pub fn law_plays()
    // Each user's call, tick, acceptance and copy that comes is played by an end of a laboratory,
    // which stands for the plain machine again.
    ensures calls { KeepsPlay }
    // The same holds for a packet that makes little of the connection.
    ensures quiet { KeepsQuiet }
    // A laboratory begins with any new or closed connection that asks, for any contact and under
    // any configuration.
    ensures begins { MayBegin }
    // A connection that took no request may be replaced by any new or closed connection of its
    // configuration.
    ensures replaces { MayReplace }
{}

/// The law of what is true of every laboratory that is tied to a plain machine, however it came
/// about.
pub fn law_kept()
    // What was read is a prefix of what was written.
    ensures begins { ReadsBegin }
    // Each copy of an RFC is A's item 0, from A's place.
    ensures requests { RfcIsFirst }
    // While A waits, it has written its RFC alone and read nothing.
    ensures waits { AskingWaits }
    // While B took no request, nobody has read anything, and A wrote its RFC alone.
    ensures unasked { UnaskedIsNew }
    // A is never asked, and B never asks.
    ensures sides { KnowsSides }
    // Each copy but an RFC's names the index of the other place.
    ensures index { OthersNameIndex }
    // An open end has read the other's item 0.
    ensures opened { OpenHasRead }
    // An A that has read nothing has written its RFC alone.
    ensures alone { UnreadIsAlone }
    // An item that comes to an open end inside its window is held there, as many places from the
    // front as items before it are still to be read.
    ensures held { ComesHeld }
{}

/// The law that the premises of [`law_delivery`] and [`law_phases`] can be met.
pub fn law_machine_hello()
    // A run leads to a machine in which B was asked.
    ensures asked { SomethingIsAsked }
    // A run leads to a machine in which A has written an item. The item comes to B inside the
    // window, and B reads it in its turn.
    ensures read { SomethingIsRead }
{}

/// The law that the premises of the laws of a [`Lab`](crate::Lab) can be met.
pub fn law_lab_hello()
    // A laboratory can open before B took the request, while B holds the request, and after B has
    // accepted it. Then there is time to settle.
    ensures opening { LabsCanOpen }
    // Two open ends can settle. One of them hasn't read all that the other wrote, and a copy of
    // what is left to read may come inside the window.
    ensures progress { LabCanSettle }
    // A round comes in which the reader gets the item for which it waits. 64 rounds come one after
    // the other, and in each of them the writer sends the item again.
    ensures rounds { RoundsCome }
    // An item that was read comes again. The answer comes back, and frees the writer of all that it
    // keeps.
    ensures reports { ReportComes }
{}
