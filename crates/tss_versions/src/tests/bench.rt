// A bank as the tests use it: each call is made where what it asks holds, and the messages that it sends are compared.
ghost use Rattle.std.specs.Prelude.{◌≡◌, IfOk, IfErr};
ghost use Rattle.tss_versions.specs.Known.{IsHeld};
ghost use Rattle.tss_versions.specs.Conditions.{OpensBare};
ghost use Rattle.tss_versions.specs.Numbers.{AreSentNumbered, GoneNumbered, IsNumbered, OpensNumbered};

use crate::tests::checks::{is_chained, is_free};
use crate::version_view::VersionView;
use crate::versions::Versions;
use std::alloc::Global;
use std::marker::Model;
use std::process::Abort;
use tss_base::{Blocked, Follow, How, NoMemory, OpName, Operand, Sizes, Storage};
use tss_events::{Gone, HeldBuffer, Message, Opening, Sent};
use tss_tokens::{Ended, Pool, Token};

/// A message without its tokens, whose places are left. A gone has its version's place, its buffer where that ends with
/// it, and whether the version was the last of its object.
#[derive(Clone, Copy, Debug, PartialEq, Eq)]
pub enum Told {
    Ready(OpName, OpName, Storage),
    Link(OpName, OpName),
    Bye(OpName, bool),
    Idle(OpName, u32, u32),
    Gone(OpName, u32, Option<Storage>, bool),
}

/// A version to be opened at a place. Beside another one it has a buffer, over it no storage yet, and it is at home
/// where it follows none.
#[derive(Clone, Copy, Debug)]
pub struct Plan {
    pub o: OpName,
    pub operand: Operand,
    pub place: u8,
    pub follows: Option<Follow>,
    pub buffer: u8,
}

/// A pool with a number, whose places are all free.
fn pool(rt: &impl Abort, alloc: Global, number: u32) -> Pool
    ensures { result.number ≡ number }
{
    match Pool::open(alloc, number, 256) {
        Ok(pool) => pool,
        Err(NoMemory) => panic!(rt; "memory ran out"),
    }
}

/// The token of a place of a pool with a number.
fn token(rt: &impl Abort, alloc: Global, number: u32, place: u8) -> Token
    ensures { result.number ≡ number }
{
    let ended = pool(rt, alloc, number).end();
    let mut pool = pool(rt, alloc, number);
    for _k in 0..place {
        match pool.take() {
            Some(token) => token.end(&ended),
            None => rt.abort(),
        }
    }
    match pool.take() {
        Some(token) => {
            assert_eq!(rt; token.place(), u32::from(place));
            token
        }
        None => rt.abort(),
    }
}

/// The message that opens a version, with tokens of the places of pool 0 and of the buffers of pool 1.
fn opening(rt: &impl Abort, alloc: Global, plan: Plan) -> Opening
    ensures held { IsHeld result.storage result.buffer }
    ensures bare { OpensBare result }
    ensures numbers { OpensNumbered 0 1 result }
{
    let place = token(rt, alloc, 0, plan.place);
    let Some(follow) = plan.follows else {
        return Opening {
            o: plan.o,
            operand: plan.operand,
            storage: Some(Storage::Home),
            follows: None,
            place,
            buffer: None,
        };
    };
    match follow.how {
        How::Over => Opening {
            o: plan.o,
            operand: plan.operand,
            storage: None,
            follows: Some(follow),
            place,
            buffer: None,
        },
        How::Beside => {
            let buffer = token(rt, alloc, 1, plan.buffer);
            Opening {
                o: plan.o,
                operand: plan.operand,
                storage: Some(Storage::Buffer(buffer.place(), plan.o)),
                follows: Some(follow),
                place,
                buffer: Some(buffer),
            }
        }
    }
}

/// Spends a buffer, and says which it was.
fn spent_buffer(buffer: Option<HeldBuffer>, buffers: &Ended) -> Option<Storage>
    requires { (held : _) → buffer ≡ Some held → held.token.number ≡ buffers.now }
{
    let HeldBuffer { name, token } = buffer?;
    let place = token.place();
    token.end(buffers);
    Some(Storage::Buffer(place, name))
}

/// Spends what a version had that is gone, and says what it was.
fn spent(gone: Gone, places: &Ended, buffers: &Ended) -> Told
    requires { GoneNumbered places.now buffers.now gone }
{
    let Gone {
        version,
        object: _,
        place,
        buffer,
        retired,
    } = gone;
    let at = place.place();
    place.end(places);
    Told::Gone(version, at, spent_buffer(buffer, buffers), retired)
}

/// A message without its tokens, which are spent.
fn read_message(rt: &impl Abort, m: Message, places: &Ended, buffers: &Ended) -> Told
    requires { IsNumbered places.now buffers.now m }
{
    match m {
        Message::Ready(o, v, storage) => Told::Ready(o, v, storage),
        Message::Link(o, next) => Told::Link(o, next),
        Message::Bye(o, promised) => Told::Bye(o, promised),
        Message::Idle(v, base, count) => Told::Idle(v, base, count),
        Message::Gone(gone) => spent(gone, places, buffers),
        _other => panic!(rt; "a message that no bank of versions sends"),
    }
}

/// The messages are these, in this order.
fn are_told(rt: &impl Abort, sent: Sent, places: &Ended, buffers: &Ended, expected: &[Told])
    requires { AreSentNumbered places.now buffers.now sent }
{
    let mut sent = sent;
    for want in expected {
        match sent.pop() {
            Some(m) => assert_eq!(rt; read_message(rt, m, places, buffers), *want),
            None => panic!(rt; "a message is missing"),
        }
    }
    match sent.pop() {
        None => sent.end(),
        Some(m) => panic!(rt;
            "one message more: {:?}",
            read_message(rt, m, places, buffers)
        ),
    }
}

/// A bank of versions with the pools of its places and buffers, which have ended.
pub struct Bench {
    bank: Versions,
    places: Ended,
    buffers: Ended,
}

impl Model for Bench {
    ghost use Rattle.std.specs.Prelude.{◌≡◌};
    ghost use Rattle.tss_versions.specs.Known.{VersionsState, versions_code, AreNumbered};

    ghost Value = { VersionsState };

    ghost coded = { versions_code };

    ghost view = { λ b. b.bank };

    ghost invariant = { λ b. (b.places ≡ 0) × ((b.buffers ≡ 1) × AreNumbered 0 1 b.bank.versions) };
}

impl Bench {
    /// An empty bank with so many places.
    pub fn open(rt: &impl Abort, alloc: Global, size: u16) -> Bench {
        let sizes = Sizes {
            stations: 1,
            slots: 8,
            workers: 1,
            banks: 1,
            entries: 16,
            versions: u32::from(size),
            buffers: 7,
            quantum: 1,
            window: 1,
        };
        assert!(rt; 7 <= sizes.versions && sizes.versions <= 256);
        match Versions::open(alloc, &sizes) {
            Ok(bank) => Bench {
                bank,
                places: pool(rt, alloc, 0).end(),
                buffers: pool(rt, alloc, 1).end(),
            },
            Err(NoMemory) => panic!(rt; "memory ran out"),
        }
    }

    /// How many versions are registered.
    pub fn count(&self) -> u32 {
        self.bank.count()
    }

    /// A registered version.
    pub fn version(&self, v: OpName) -> Option<VersionView> {
        self.bank.version(v)
    }

    /// Offers a version to the bank.
    fn offered(&mut self, rt: &impl Abort, m: Opening) -> Result<Sent, (Blocked, Opening)>
        requires held { IsHeld m.storage m.buffer }
        requires bare { OpensBare m }
        requires numbers { OpensNumbered 0 1 m }
        ensures sent { IfOk result (AreSentNumbered 0 1) }
        ensures handed_back { IfErr result (λ e. OpensNumbered 0 1 e.1) }
    {
        assert!(rt; m.place.place() < self.bank.size());
        assert!(rt; !self.bank.has(m.o));
        assert!(rt; is_free(&self.bank, m.place.place()));
        assert!(rt; is_chained(&self.bank));
        self.bank.open_version(m)
    }

    /// Opens a version.
    pub fn opens(&mut self, rt: &impl Abort, alloc: Global, plan: Plan, expected: &[Told]) {
        match self.offered(rt, opening(rt, alloc, plan)) {
            Ok(sent) => are_told(rt, sent, &self.places, &self.buffers, expected),
            Err((Blocked, _opening)) => panic!(rt; "an open is blocked"),
        }
    }

    /// An open is blocked, and hands its tokens back.
    pub fn blocks(&mut self, rt: &impl Abort, alloc: Global, plan: Plan) {
        match self.offered(rt, opening(rt, alloc, plan)) {
            Ok(_sent) => panic!(rt; "an open isn't blocked"),
            Err((Blocked, opening)) => {
                let Opening {
                    o,
                    operand: _,
                    storage: _,
                    follows: _,
                    place,
                    buffer,
                } = opening;
                place.end(&self.places);
                assert_eq!(rt; o, plan.o);
                match buffer {
                    Some(token) => token.end(&self.buffers),
                    None => {}
                }
            }
        }
    }

    /// Offers a reader to a version.
    fn enlisted(&mut self, rt: &impl Abort, o: OpName, v: OpName) -> Result<Sent, Blocked>
        ensures { IfOk result (AreSentNumbered 0 1) }
    {
        if let Some(seen) = self.bank.version(v) {
            assert!(rt; seen.registered < u32::MAX);
        }
        self.bank.enlist(o, v)
    }

    /// A reader uses a version.
    pub fn uses(&mut self, rt: &impl Abort, o: OpName, v: OpName, expected: &[Told]) {
        match self.enlisted(rt, o, v) {
            Ok(sent) => are_told(rt, sent, &self.places, &self.buffers, expected),
            Err(Blocked) => panic!(rt; "a use is blocked"),
        }
    }

    /// A use is blocked.
    pub fn blocks_use(&mut self, rt: &impl Abort, o: OpName, v: OpName) {
        match self.enlisted(rt, o, v) {
            Ok(_sent) => panic!(rt; "a use isn't blocked"),
            Err(Blocked) => {}
        }
    }

    /// An operand releases a version.
    pub fn releases(
        &mut self,
        rt: &impl Abort,
        o: OpName,
        v: OpName,
        producer: bool,
        expected: &[Told],
    ) {
        match self.bank.version(v) {
            Some(seen) => assert!(rt; producer || seen.released < seen.registered),
            None => panic!(rt; "no such version"),
        }
        assert!(rt; is_chained(&self.bank));
        let sent = self.bank.release(o, v, producer);
        are_told(rt, sent, &self.places, &self.buffers, expected);
    }

    /// A version is refused.
    pub fn refuses(&mut self, rt: &impl Abort, v: OpName, expected: &[Told]) {
        assert!(rt; self.bank.has(v));
        assert!(rt; is_chained(&self.bank));
        let sent = self.bank.nack(v);
        are_told(rt, sent, &self.places, &self.buffers, expected);
    }

    /// A version retires.
    pub fn retires(&mut self, rt: &impl Abort, v: OpName, expected: Told) {
        assert!(rt; self.bank.has(v));
        let gone = self.bank.retire(v);
        assert_eq!(rt; spent(gone, &self.places, &self.buffers), expected);
    }

    /// Ends the bank, with the versions that are left.
    pub fn close(self) {
        let Bench {
            bank,
            places,
            buffers,
        } = self;
        bank.close(&places, &buffers);
    }
}
