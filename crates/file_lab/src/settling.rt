//! How FILE settles.
ghost use Rattle.std.specs.Prelude.{◌≡◌, ◌⊎◌, true, [], ◌∷◌, IfSome, IfNone, OnOk, OnErr};
ghost use Rattle.chaos_lab.specs.Laboratory.Happening.{DeliverCopy};
ghost use Rattle.file_lab.specs.Events.{At, file_event};
ghost use Rattle.file_lab.specs.Exact.{file_happen};
ghost use Rattle.file_lab.specs.View.{FileLabView, wrote_mem};
ghost use Rattle.file_lab.specs.Progress.{CanServe, AllServed};
ghost use Rattle.file_lab.specs.Settling.{file_settling, after_events, Stopped};
ghost use Rattle.file_lab.specs.SettlingLeft.{left, left_at};

use crate::event::FileEvent;
use crate::file_lab::FileLab;
use chaos_lab::{Event, Side};
use std::alloc::{AllocError, Global};

/// Where settling stands.
#[derive(Clone, Copy, Debug, PartialEq, Eq)]
pub(crate) enum Place {
    /// B's greatest window is announced,
    Start,
    /// by an STS, this copy, which comes to A.
    HearB(usize),
    /// A's clock goes on until it sends again what it has no receipt for.
    ResendA,
    /// A's user announces its greatest window,
    Home,
    /// by an STS, this copy, which comes to B.
    HearA(usize),
    /// B's clock goes on until it sends again what it has no receipt for.
    ResendB,
    /// What B sent again comes to A.
    Take,
    /// A's user reads so many times, if there is something.
    Read(u16),
    /// This copy comes to A, and those that were sent with it later.
    Come(usize),
    /// A's user reads what came, if there is something. Then this copy comes, and the others.
    ReadCome(usize),
    /// The next item comes to B, if none is in front.
    Next,
    /// A's user announces its greatest window,
    Tell,
    /// by an STS, this copy, which comes to B.
    Told(usize),
    /// B's server serves the item in front.
    Answer,
    /// Its reply comes to A, if it has replied.
    Answered,
    /// A's user reads the reply.
    ReadReply,
    /// All was served, and A's user has announced its greatest window, by an STS, this copy, which
    /// comes to B.
    EndA(usize),
    /// B's greatest window is announced,
    EndTell,
    /// by an STS, this copy, which comes to A.
    EndB(usize),
    Over,
}

/// The events by which a laboratory settles whose B serves FILE, one after the other. Each end
/// reports to the other what came to it, and sends again what it has no receipt for. A's user reads
/// the replies that were written before. Then B's server serves item after item, and each reply
/// comes to A, whose user reads it. At the end each user reports that all was read.
///
/// Only copies that were sent since are delivered, each once.
#[derive(Clone, Copy, Debug, PartialEq, Eq)]
pub struct FileSettling {
    place: Place,
    /// The copies that B sent again: from this number on,
    from: usize,
    /// up to this one.
    to: usize,
    /// What A sent again, the last of it just before this copy.
    before: usize,
    /// How many items of A are left for B's server, behind the present one.
    left: usize,
    /// How many items B had written when its server last served.
    wrote: usize,
}

impl FileSettling {
    /// Settling at its start.
    pub fn new() -> Self
        // What is left of settling at first is all of it.
        ensures { (l : FileLabView) → left result l ≡ file_settling l }
    {
        FileSettling {
            place: Place::Start,
            from: 0,
            to: 0,
            before: 0,
            left: 0,
            wrote: 0,
        }
    }

    /// Takes the next event, in the laboratory as it is after those before. Let each event happen
    /// before you ask for the next.
    pub fn next(&mut self, lab: &FileLab) -> Option<FileEvent<'static>>
        // The answer is the first event of what is left, in the laboratory as it is then, and the
        // others are left.
        ensures some { IfSome result (λ event. left self.old lab.now
            ≡ file_event event ∷ left self.new (file_happen lab.now (file_event event)).view) }
        // No event is answered where nothing is left.
        ensures none { IfNone result (left self.old lab.now ≡ []) }
    {
        match self.place {
            Place::Start => Some(self.start(lab)),
            Place::HearB(copy) => Some(self.deliver(copy, Place::ResendA)),
            Place::ResendA => Some(self.resend_a(lab)),
            Place::Home => Some(self.home(lab)),
            Place::HearA(copy) => Some(self.deliver(copy, Place::ResendB)),
            Place::ResendB => Some(self.resend_b(lab)),
            Place::Take => Some(self.take(lab)),
            Place::Read(times) => Some(self.read(lab, times)),
            Place::Come(copy) => Some(self.come(lab, copy)),
            Place::ReadCome(copy) => Some(self.read_come(lab, copy)),
            Place::Next => Some(self.go_on(lab)),
            Place::Tell => Some(self.tell(lab)),
            Place::Told(copy) => Some(self.deliver(copy, Place::Answer)),
            Place::Answer => Some(self.answer(lab)),
            Place::Answered => Some(self.answered(lab)),
            Place::ReadReply => Some(self.read_reply(lab)),
            Place::EndA(copy) => Some(self.deliver(copy, Place::EndTell)),
            Place::EndTell => Some(self.end(lab)),
            Place::EndB(copy) => Some(self.deliver(copy, Place::Over)),
            Place::Over => None,
        }
    }

    /// A copy comes, and then it goes on at a place.
    fn deliver(&mut self, copy: usize, place: Place) -> FileEvent<'static>
        ensures event { file_event result ≡ At (DeliverCopy copy) }
        ensures on { self.new ≡ record self.old { place = place } }
    {
        self.place = place;
        FileEvent::At(Event::Deliver(copy))
    }

    /// B's greatest window is announced.
    fn start(&mut self, lab: &FileLab) -> FileEvent<'static>
        ensures { left_at Place.Start self.old lab.now
            ≡ file_event result ∷ left self.new (file_happen lab.now (file_event result)).view }
    {
        self.place = Place::HearB(lab.copies().len());
        lab.announcement(Side::B)
    }

    /// A sends again.
    fn resend_a(&mut self, lab: &FileLab) -> FileEvent<'static>
        ensures { left_at Place.ResendA self.old lab.now
            ≡ file_event result ∷ left self.new (file_happen lab.now (file_event result)).view }
    {
        self.place = Place::Home;
        lab.resending(Side::A)
    }

    /// A, which has just sent again, announces its greatest window.
    fn home(&mut self, lab: &FileLab) -> FileEvent<'static>
        ensures { left_at Place.Home self.old lab.now
            ≡ file_event result ∷ left self.new (file_happen lab.now (file_event result)).view }
    {
        let copies = lab.copies().len();
        self.before = copies;
        self.left = lab.unread();
        self.place = Place::HearA(copies);
        lab.announcement(Side::A)
    }

    /// B sends again.
    fn resend_b(&mut self, lab: &FileLab) -> FileEvent<'static>
        ensures { left_at Place.ResendB self.old lab.now
            ≡ file_event result ∷ left self.new (file_happen lab.now (file_event result)).view }
    {
        self.from = lab.copies().len();
        self.place = Place::Take;
        lab.resending(Side::B)
    }

    /// What B has just sent again comes to A.
    fn take(&mut self, lab: &FileLab) -> FileEvent<'static>
        ensures { left_at Place.Take self.old lab.now
            ≡ file_event result ∷ left self.new (file_happen lab.now (file_event result)).view }
    {
        self.to = lab.copies().len();
        self.read(lab, lab.recv_cap(Side::A))
    }

    /// A's user reads so many times, if there is something; then the copies come.
    fn read(&mut self, lab: &FileLab, times: u16) -> FileEvent<'static>
        ensures { left_at (Place.Read times) self.old lab.now
            ≡ file_event result ∷ left self.new (file_happen lab.now (file_event result)).view }
    {
        if times == 0 || lab.waits(Side::A) {
            return self.come(lab, self.from);
        }
        self.place = Place::Read(times - 1);
        FileEvent::At(Event::Read(Side::A))
    }

    /// This copy comes to A, and those that were sent with it later.
    fn come(&mut self, lab: &FileLab, copy: usize) -> FileEvent<'static>
        ensures { left_at (Place.Come copy) self.old lab.now
            ≡ file_event result ∷ left self.new (file_happen lab.now (file_event result)).view }
    {
        if copy >= self.to {
            return self.go_on(lab);
        }
        self.place = Place::ReadCome(copy + 1);
        FileEvent::At(Event::Deliver(copy))
    }

    /// A's user reads what came, if there is something; then this copy comes, and the others.
    fn read_come(&mut self, lab: &FileLab, copy: usize) -> FileEvent<'static>
        ensures { left_at (Place.ReadCome copy) self.old lab.now
            ≡ file_event result ∷ left self.new (file_happen lab.now (file_event result)).view }
    {
        if lab.waits(Side::A) {
            return self.come(lab, copy);
        }
        self.place = Place::Come(copy);
        FileEvent::At(Event::Read(Side::A))
    }

    /// The next item comes to B, if none is in front; or all have been served.
    fn go_on(&mut self, lab: &FileLab) -> FileEvent<'static>
        ensures { left_at Place.Next self.old lab.now
            ≡ file_event result ∷ left self.new (file_happen lab.now (file_event result)).view }
    {
        if self.left == 0 {
            self.place = Place::EndA(lab.copies().len());
            return lab.announcement(Side::A);
        }
        let copy = self.before.saturating_sub(self.left);
        self.left -= 1;
        if lab.waits(Side::B) {
            self.place = Place::Tell;
            return FileEvent::At(Event::Deliver(copy));
        }
        self.tell(lab)
    }

    /// A's user announces its greatest window, so that B may reply.
    fn tell(&mut self, lab: &FileLab) -> FileEvent<'static>
        ensures { left_at Place.Tell self.old lab.now
            ≡ file_event result ∷ left self.new (file_happen lab.now (file_event result)).view }
    {
        self.place = Place::Told(lab.copies().len());
        lab.announcement(Side::A)
    }

    /// B's server serves what is in front.
    fn answer(&mut self, lab: &FileLab) -> FileEvent<'static>
        ensures { left_at Place.Answer self.old lab.now
            ≡ file_event result ∷ left self.new (file_happen lab.now (file_event result)).view }
    {
        self.wrote = lab.wrote();
        self.place = Place::Answered;
        FileEvent::Serve
    }

    /// The reply comes to A, if there is one.
    fn answered(&mut self, lab: &FileLab) -> FileEvent<'static>
        ensures { left_at Place.Answered self.old lab.now
            ≡ file_event result ∷ left self.new (file_happen lab.now (file_event result)).view }
    {
        if lab.wrote() <= self.wrote {
            return self.go_on(lab);
        }
        self.place = Place::ReadReply;
        FileEvent::At(Event::Deliver(lab.copies().len().saturating_sub(1)))
    }

    /// A's user reads the reply.
    fn read_reply(&mut self, lab: &FileLab) -> FileEvent<'static>
        ensures { left_at Place.ReadReply self.old lab.now
            ≡ file_event result ∷ left self.new (file_happen lab.now (file_event result)).view }
    {
        if lab.waits(Side::A) {
            return self.go_on(lab);
        }
        self.place = Place::Next;
        FileEvent::At(Event::Read(Side::A))
    }

    /// B's greatest window is announced, for the last time.
    fn end(&mut self, lab: &FileLab) -> FileEvent<'static>
        ensures { left_at Place.EndTell self.old lab.now
            ≡ file_event result ∷ left self.new (file_happen lab.now (file_event result)).view }
    {
        self.place = Place::EndB(lab.copies().len());
        lab.announcement(Side::B)
    }
}

impl FileLab {
    /// Lets all be served that A wrote, by the events of [`FileSettling`], at most 586.
    ///
    /// # Errors
    /// No memory for the histories, or for a reply of B.
    pub fn settle(&mut self, alloc: Global) -> Result<(), AllocError>
        requires { CanServe self.old }
        // Afterwards A's user has read the reply to each command, neither end stores a packet, and
        // both are drained and open.
        ensures served { OnOk result (AllServed self.old self.new) }
        // Exactly the events of settling happened.
        ensures events { OnOk result (self.new ≡ after_events self.old (file_settling self.old)) }
        // Where there is no memory for the histories it stops, with all as after the events before;
        // or B wrote an out-of-memory reply.
        ensures no_memory { OnErr result
            ((wrote_mem self.new ≡ true) ⊎ Stopped self.old (file_settling self.old) self.new) }
    {
        self.law_progress();
        let mut events = FileSettling::new();
        while let Some(event) = events.next(self) {
            if self.step(alloc, &event).is_err() || self.wrote_mem() {
                return Err(AllocError);
            }
        }
        Ok(())
    }
}
