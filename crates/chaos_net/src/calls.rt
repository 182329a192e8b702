//! The events that users and clocks make.
ghost use Rattle.std.specs.Prelude.{◌≡◌, ◌<◌, IfOk, IfErr, OnOk, OnErr};
ghost use Rattle.chaos_conn.specs.Act.{Accept, Answer, Reject, Write, Unc, Read, FinishRead, Announce, Close, Did, Wrote, Gave, Finished};
ghost use Rattle.chaos_host.specs.Calls.{host_call, host_end, host_release, reply_of, plain_reply_of};
ghost use Rattle.chaos_host.specs.Connect.{host_connect};
ghost use Rattle.chaos_host.specs.Listening.{listen_fault, listen_answer};
ghost use Rattle.chaos_host.specs.Tick.{host_tick};
ghost use Rattle.chaos_host.specs.Deeds.HostEvent.{Calls, Connects, Ends, Listens, Releases, Ticks};
ghost use Rattle.chaos_net.specs.Kept.{at, connect_place};
ghost use Rattle.chaos_net.specs.Inside.{IsWant};
ghost use Rattle.chaos_net.specs.Net.NetEvent.{At};
ghost use Rattle.chaos_net.specs.Running.{Happens, ReadIsTold, FrontIsRead, WriteIsTold};

use crate::ending::is_named;
use crate::fault::NetFault;
use crate::mark::Mark;
use crate::net::Net;
use crate::station::place_of;
use chaos_conn::{ReadDone, ReadEnd, Ticked};
use chaos_host::{CallFault, ConnId, ConnectFault, ListenFault};
use chaos_lab::Side;
use chaos_packet::{Opcode, PktNum};

impl Net {
    /// The host at a side listens to a contact.
    pub fn listen(
        &mut self,
        side: Side,
        contact: &[u8],
    ) -> Result<Result<(), ListenFault>, NetFault>
        // The contact is listened to by that event of the definition, with the host's own answer.
        ensures happens { OnOk result (Happens self.old (At side (Listens contact.now)) self.new) }
        ensures answer { IfOk result (λ told. told
            ≡ listen_answer (listen_fault (at self.old side).host.listeners contact.now)) }
        ensures same { OnErr result (self.new ≡ self.old) }
        ensures why { IfErr result (IsWant self.old.events) }
    {
        let station = self.stations.at_mut(side);
        self.desk.ready(&mut station.sent)?;
        let told = station.host.listen(contact);
        station.settle(&mut self.desk, None, Mark::Stays);
        Ok(told)
    }

    /// The host at a side asks for a contact, as [`chaos_host::Host::connect`] does.
    pub fn connect(
        &mut self,
        side: Side,
        peer: u16,
        contact: &[u8],
        start: PktNum,
        now: u64,
    ) -> Result<Result<ConnId, ConnectFault>, NetFault>
        // The contact is asked for by that event of the definition, with the host's own answer.
        ensures happens { OnOk result
            (Happens self.old (At side (Connects peer contact.now start now)) self.new) }
        ensures answer { IfOk result (λ told. told
            ≡ (host_connect (at self.old side).host peer contact.now start now).answer) }
        ensures same { OnErr result (self.new ≡ self.old) }
        ensures why { IfErr result (IsWant self.old.events) }
    {
        let _bits = bits_of(start);
        let station = self.stations.at_mut(side);
        self.desk.ready(&mut station.sent)?;
        let told = station
            .host
            .connect(peer, contact, start, now, &mut self.desk.out);
        station.settle(&mut self.desk, connect_place(&told), Mark::Begins(None));
        Ok(told)
    }

    /// A user accepts the request that a connection holds.
    pub fn accept(
        &mut self,
        side: Side,
        id: ConnId,
        start: PktNum,
        now: u64,
    ) -> Result<Result<(), CallFault>, NetFault>
        // The request is accepted by that event of the definition, with the host's own answer.
        ensures happens { OnOk result
            (Happens self.old (At side (Calls id (Accept start now))) self.new) }
        ensures answer { IfOk result (λ told. reply_of Did told
            ≡ (host_call (at self.old side).host id (Accept start now)).answer) }
        ensures same { OnErr result (self.new ≡ self.old) }
        ensures why { IfErr result (IsWant self.old.events) }
    {
        let station = self.stations.at_mut(side);
        self.desk.ready(&mut station.sent)?;
        let told = station.host.accept(id, start, now, &mut self.desk.out);
        station.settle(&mut self.desk, Some(place_of(id)), Mark::Stays);
        Ok(told)
    }

    /// A user writes.
    pub fn write(
        &mut self,
        side: Side,
        id: ConnId,
        op: Opcode,
        bytes: &[u8],
        now: u64,
    ) -> Result<Result<PktNum, CallFault>, NetFault>
        // The item is written by that event of the definition, with the host's own answer.
        ensures happens { OnOk result
            (Happens self.old (At side (Calls id (Write op bytes.now now))) self.new) }
        ensures answer { IfOk result (λ told. reply_of Wrote told
            ≡ (host_call (at self.old side).host id (Write op bytes.now now)).answer) }
        // What the write takes joins what the connection has written.
        ensures told { IfOk result (λ told. WriteIsTold self.old side id op bytes.now now told) }
        ensures same { OnErr result (self.new ≡ self.old) }
        ensures why { IfErr result (IsWant self.old.events) }
    {
        let station = self.stations.at_mut(side);
        self.desk.ready(&mut station.sent)?;
        let told = station.host.write(id, op, bytes, now, &mut self.desk.out);
        station.settle(&mut self.desk, Some(place_of(id)), Mark::Stays);
        Ok(told)
    }

    /// A user sends uncontrolled data.
    pub fn unc(
        &mut self,
        side: Side,
        id: ConnId,
        bytes: &[u8],
    ) -> Result<Result<(), CallFault>, NetFault>
        // The data are sent by that event of the definition, with the host's own answer.
        ensures happens { OnOk result
            (Happens self.old (At side (Calls id (Unc bytes.now))) self.new) }
        ensures answer { IfOk result (λ told. reply_of Did told
            ≡ (host_call (at self.old side).host id (Unc bytes.now)).answer) }
        ensures same { OnErr result (self.new ≡ self.old) }
        ensures why { IfErr result (IsWant self.old.events) }
    {
        let station = self.stations.at_mut(side);
        self.desk.ready(&mut station.sent)?;
        let told = station.host.unc(id, bytes, &mut self.desk.out);
        station.settle(&mut self.desk, Some(place_of(id)), Mark::Stays);
        Ok(told)
    }

    /// A user announces another window.
    pub fn announce(
        &mut self,
        side: Side,
        id: ConnId,
        window: u16,
    ) -> Result<Result<(), CallFault>, NetFault>
        // The window is announced by that event of the definition, with the host's own answer.
        ensures happens { OnOk result
            (Happens self.old (At side (Calls id (Announce window))) self.new) }
        ensures answer { IfOk result (λ told. reply_of Did told
            ≡ (host_call (at self.old side).host id (Announce window)).answer) }
        ensures same { OnErr result (self.new ≡ self.old) }
        ensures why { IfErr result (IsWant self.old.events) }
    {
        let station = self.stations.at_mut(side);
        self.desk.ready(&mut station.sent)?;
        let told = station.host.announce(id, window, &mut self.desk.out);
        station.settle(&mut self.desk, Some(place_of(id)), Mark::Stays);
        Ok(told)
    }

    /// A user reads the next item, and gets it.
    pub fn read(&mut self, side: Side, id: ConnId) -> Result<Result<ReadEnd, CallFault>, NetFault>
        // The item is read by that event of the definition, with the host's own answer.
        ensures happens { OnOk result (Happens self.old (At side (Calls id Read)) self.new) }
        ensures answer { IfOk result (λ told. plain_reply_of Gave told
            ≡ (host_call (at self.old side).host id Read).answer) }
        // What the read hands out joins what the connection has read.
        ensures told { IfOk result (λ told. ReadIsTold self.old side id told) }
        ensures same { OnErr result (self.new ≡ self.old) }
        ensures why { IfErr result (IsWant self.old.events) }
    {
        let station = self.stations.at_mut(side);
        self.desk.ready(&mut station.sent)?;
        let told = station.host.read(id, &mut self.desk.out);
        station.settle(&mut self.desk, Some(place_of(id)), Mark::Stays);
        Ok(told)
    }

    /// A user reads the next item, which [`chaos_host::Host::front`] lends before, and gets
    /// nothing.
    pub fn read_done(
        &mut self,
        side: Side,
        id: ConnId,
    ) -> Result<Result<ReadDone, CallFault>, NetFault>
        // The item is passed over by that event of the definition, with the host's own answer.
        ensures happens { OnOk result (Happens self.old (At side (Calls id FinishRead)) self.new) }
        ensures answer { IfOk result (λ told. plain_reply_of Finished told
            ≡ (host_call (at self.old side).host id FinishRead).answer) }
        // What was in front joins what the connection has read.
        ensures told { IfOk result (λ told. FrontIsRead self.old side id told) }
        ensures same { OnErr result (self.new ≡ self.old) }
        ensures why { IfErr result (IsWant self.old.events) }
    {
        let station = self.stations.at_mut(side);
        self.desk.ready(&mut station.sent)?;
        let told = station.host.read_done(id, &mut self.desk.out);
        station.settle(&mut self.desk, Some(place_of(id)), Mark::Stays);
        Ok(told)
    }

    /// A user answers the request that a connection holds, whose slot is freed.
    pub fn answer(
        &mut self,
        side: Side,
        id: ConnId,
        bytes: &[u8],
    ) -> Result<Result<(), CallFault>, NetFault>
        // The request is answered by that event of the definition, with the host's own answer.
        ensures happens { OnOk result
            (Happens self.old (At side (Ends id (Answer bytes.now))) self.new) }
        ensures answer { IfOk result (λ told. reply_of Did told
            ≡ (host_end (at self.old side).host id (Answer bytes.now)).answer) }
        ensures same { OnErr result (self.new ≡ self.old) }
        ensures why { IfErr result (IsWant self.old.events) }
    {
        let station = self.stations.at_mut(side);
        self.desk.ready(&mut station.sent)?;
        let named = is_named(&station.host, id);
        let told = station.host.answer(id, bytes, &mut self.desk.out);
        station.settle_ended(&mut self.desk, id, named);
        Ok(told)
    }

    /// A user refuses the request that a connection holds, whose slot is freed.
    pub fn reject(
        &mut self,
        side: Side,
        id: ConnId,
        text: &[u8],
    ) -> Result<Result<(), CallFault>, NetFault>
        // The request is refused by that event of the definition, with the host's own answer.
        ensures happens { OnOk result
            (Happens self.old (At side (Ends id (Reject text.now))) self.new) }
        ensures answer { IfOk result (λ told. reply_of Did told
            ≡ (host_end (at self.old side).host id (Reject text.now)).answer) }
        ensures same { OnErr result (self.new ≡ self.old) }
        ensures why { IfErr result (IsWant self.old.events) }
    {
        let station = self.stations.at_mut(side);
        self.desk.ready(&mut station.sent)?;
        let named = is_named(&station.host, id);
        let told = station.host.reject(id, text, &mut self.desk.out);
        station.settle_ended(&mut self.desk, id, named);
        Ok(told)
    }

    /// A user gives a connection up, whose slot is freed.
    pub fn close(
        &mut self,
        side: Side,
        id: ConnId,
        text: &[u8],
    ) -> Result<Result<(), CallFault>, NetFault>
        // The connection is given up by that event of the definition, with the host's own answer.
        ensures happens { OnOk result
            (Happens self.old (At side (Ends id (Close text.now))) self.new) }
        ensures answer { IfOk result (λ told. reply_of Did told
            ≡ (host_end (at self.old side).host id (Close text.now)).answer) }
        ensures same { OnErr result (self.new ≡ self.old) }
        ensures why { IfErr result (IsWant self.old.events) }
    {
        let station = self.stations.at_mut(side);
        self.desk.ready(&mut station.sent)?;
        let named = is_named(&station.host, id);
        let told = station.host.close(id, text, &mut self.desk.out);
        station.settle_ended(&mut self.desk, id, named);
        Ok(told)
    }

    /// The slot of an ended connection is freed.
    pub fn release(&mut self, side: Side, id: ConnId) -> Result<Result<(), CallFault>, NetFault>
        // The slot is freed by that event of the definition, with the host's own answer.
        ensures happens { OnOk result (Happens self.old (At side (Releases id)) self.new) }
        ensures answer { IfOk result (λ told. told
            ≡ (host_release (at self.old side).host id).answer) }
        ensures same { OnErr result (self.new ≡ self.old) }
        ensures why { IfErr result (IsWant self.old.events) }
    {
        let station = self.stations.at_mut(side);
        self.desk.ready(&mut station.sent)?;
        let named = is_named(&station.host, id);
        let told = station.host.release(id, &mut self.desk.out);
        station.settle_ended(&mut self.desk, id, named);
        Ok(told)
    }

    /// What is due in a slot is done.
    pub fn tick(&mut self, side: Side, slot: usize, now: u64) -> Result<Ticked, NetFault>
        // The slot is ticked by that event of the definition, with the host's own answer.
        ensures happens { OnOk result (Happens self.old (At side (Ticks slot now)) self.new) }
        ensures answer { IfOk result (λ told. told
            ≡ (host_tick (at self.old side).host slot now).answer) }
        ensures same { OnErr result (self.new ≡ self.old) }
        ensures why { IfErr result (IsWant self.old.events) }
    {
        let station = self.stations.at_mut(side);
        self.desk.ready(&mut station.sent)?;
        let told = station.host.tick(slot, now, &mut self.desk.out);
        station.settle(&mut self.desk, Some(slot), Mark::Stays);
        Ok(told)
    }
}

/// The place of the connection that a connect began.
fn connect_place(told: &Result<ConnId, ConnectFault>) -> Option<usize>
    ensures { result ≡ connect_place told.now }
{
    match told {
        Ok(id) => Some(place_of(*id)),
        Err(_) => None,
    }
}

/// The 16 bits of a packet's number.
fn bits_of(number: PktNum) -> u16
    ensures value { result ≡ number }
    ensures below { number < 65536 }
{
    number.0
}
