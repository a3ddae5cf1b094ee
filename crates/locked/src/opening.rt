// A store is opened.
ghost use Rattle.std.specs.Prelude.{◌≡◌, ◌≤◌, ◌<◌, ◌+◌, ◌*◌, ◌∷◌, [], All, IfErr, IfOk};
ghost use Rattle.std.specs.Vec.{vec_len};
ghost use mathlib.Core.List.{IsPrefix};
ghost use Rattle.locked.specs.Opening.{HasFound, RefusesCoordinator, RefusesStore, RestAt, ShardsRest};

use crate::{Caller, Gate, Parts, Store};
use device::Device;
use flights::{ClosedShard, CoordinatorCell, CoordinatorPlace, LaunchLog, ShardCell};
use journal::BatchRoom;
use published::LogPass;
use records::Identity;
use sides::{Attempt, CoordinatorSide, Lists, Room};
use std::alloc::{AllocError, Global};
use std::sync::Mutex;
use std::sync::atomic::AtomicBool;
use std::thread::{self, Threads};
use tuples::{Entry, Refusal, Shards};

// The two devices of the next node.
fn take_two<D>(devices: &mut Vec<D>) -> (D, D)
    requires { 2 ≤ vec_len devices.old }
    ensures items { devices.old.items ≡ result.0 ∷ result.1 ∷ devices.new.items }
    ensures len { vec_len devices.new + 2 ≡ vec_len devices.old }
{
    let a = devices.remove(0);
    let b = devices.remove(0);
    (a, b)
}

// What each node of the store is opened with. It is lent, so that it is let go in one place.
#[derive(Drop)]
struct Ground<'a, B: Room> {
    alloc: Global,
    lists: &'a Lists<B>,
    store: u64,
    shards: Shards,
    ghost of: { (store ≡ B.store) × (shards ≡ B.shards) },
}

// The coordinator over the first two devices.
fn open_coordinator<D: Device, B: Room>(
    ground: &Ground<'_, B>,
    log: LogPass<Entry>,
    attempts: LogPass<Attempt>,
    devices: &mut Vec<D>,
) -> Result<CoordinatorSide<D, B>, Refusal>
    requires own { (log.table ≡ B.log) × (attempts.table ≡ B.attempts) }
    requires empty { (log.seen ≡ []) × (log.horizon ≡ 0) × (attempts.seen ≡ []) }
    requires left { 2 ≤ vec_len devices.old }
    requires honest { All D.honest devices.old.items }
    requires rests { B.rests → RestAt D.state D.honest B.shards B.first B.low devices.old.items }
    ensures left { vec_len devices.new + 2 ≡ vec_len devices.old }
    ensures honest { All D.honest devices.new.items }
    ensures rests { B.rests → ShardsRest D.state D.honest B.shards B.first B.low 0 devices.new.items }
    ensures list { IfOk result (λ side. B.rests → IsPrefix B.first side.seen × (B.low ≤ side.low)) }
    ensures refused { IfErr result (RefusesCoordinator D.state D.honest D.moment D.left_since B.store B.shards devices.old.items) }
{
    let (a, b) = take_two(devices);
    CoordinatorSide::open(
        ground.lists,
        ground.alloc,
        a,
        b,
        Identity::coordinator(ground.store, ground.shards),
        log,
        attempts,
    )
}

// The next shard, which is to be opened over the next two devices. What the coordinator has found it knows.
fn next_shard<D: Device, B: Room>(
    ground: &Ground<'_, B>,
    launch_log: &mut LaunchLog<B>,
    coordinator: &mut CoordinatorSide<D, B>,
    shard: u8,
    devices: &mut Vec<D>,
    room: BatchRoom,
) -> ClosedShard<D, B>
    requires there { shard < B.shards }
    requires left { 2 ≤ vec_len devices.old }
    requires honest { All D.honest devices.old.items }
    requires rests { B.rests → ShardsRest D.state D.honest B.shards B.first B.low shard devices.old.items }
    requires list { B.rests → IsPrefix B.first coordinator.old.seen × (B.low ≤ coordinator.old.low) }
    ensures left { vec_len devices.new + 2 ≡ vec_len devices.old }
    ensures honest { All D.honest devices.new.items }
    ensures rests { B.rests → ShardsRest D.state D.honest B.shards B.first B.low (shard + 1) devices.new.items }
    ensures same { coordinator.new ≡ coordinator.old }
{
    let (a, b) = take_two(devices);
    let pass = coordinator.shared(ground.lists);
    let me = Identity::shard(ground.store, ground.shards, shard);
    let known = launch_log.session(ground.lists);
    ClosedShard::new(ground.alloc, a, b, me, pass, room, known)
}

// All shards that are to be opened, in the order of their numbers, each with the memory for one flight.
fn closed_shards<D: Device, B: Room>(
    ground: &Ground<'_, B>,
    launch_log: &mut LaunchLog<B>,
    coordinator: &mut CoordinatorSide<D, B>,
    devices: &mut Vec<D>,
) -> Result<Vec<ClosedShard<D, B>>, AllocError>
    requires left { 2 * B.shards ≤ vec_len devices.old }
    requires honest { All D.honest devices.old.items }
    requires rests { B.rests → ShardsRest D.state D.honest B.shards B.first B.low 0 devices.old.items }
    requires list { B.rests → IsPrefix B.first coordinator.old.seen × (B.low ≤ coordinator.old.low) }
    ensures all { IfOk result (λ closed. vec_len closed ≡ B.shards) }
{
    let mut closed = Vec::with_capacity(ground.alloc, usize::from(ground.shards.count()))?;
    for shard in 0..ground.shards.count() {
        let room = BatchRoom::new(ground.alloc)?;
        closed.push_reserved(next_shard(ground, launch_log, coordinator, shard, devices, room));
    }
    Ok(closed)
}

// The coordinator in its cell, with this room for a flight.
fn coordinator_cell<D: Device, B: Room>(
    ground: &Ground<'_, B>,
    launch_log: &mut LaunchLog<B>,
    side: CoordinatorSide<D, B>,
    room: BatchRoom,
) -> CoordinatorCell<D, B> {
    let known = launch_log.session(ground.lists);
    CoordinatorCell::new(CoordinatorPlace::new(side, room, known))
}

// Opens them, each by a thread of its own, since each reads its own devices alone.
fn open_shards<D: Device + Send, B: Room + Send, R: Threads + Sync>(
    rt: &R,
    closed: Vec<ClosedShard<D, B>>,
) -> Result<Vec<ShardCell<D, B>>, AllocError>
    ensures all { IfOk result (λ cells. vec_len cells ≡ vec_len closed) }
{
    thread::map_vec(
        rt,
        closed,
        &|shard: ClosedShard<D, B>| ShardCell::new(shard.open()),
    )
}

// The shards, opened side by side over the devices that are left.
fn shard_cells<D: Device + Send, B: Room + Send, R: Threads + Sync>(
    rt: &R,
    ground: &Ground<'_, B>,
    launch_log: &mut LaunchLog<B>,
    coordinator: &mut CoordinatorSide<D, B>,
    devices: &mut Vec<D>,
) -> Result<Vec<ShardCell<D, B>>, AllocError>
    requires left { 2 * B.shards ≤ vec_len devices.old }
    requires honest { All D.honest devices.old.items }
    requires rests { B.rests → ShardsRest D.state D.honest B.shards B.first B.low 0 devices.old.items }
    requires list { B.rests → IsPrefix B.first coordinator.old.seen × (B.low ≤ coordinator.old.low) }
    ensures all { IfOk result (λ cells. vec_len cells ≡ B.shards) }
{
    let closed = closed_shards(ground, launch_log, coordinator, devices)?;
    open_shards(rt, closed)
}

// The first caller, the coordinator and the shards.
fn open_nodes<D: Device + Send, B: Room + Send, R: Threads + Sync>(
    rt: &R,
    ground: &Ground<'_, B>,
    launch_log: &mut LaunchLog<B>,
    log: LogPass<Entry>,
    tried: LogPass<Attempt>,
    devices: &mut Vec<D>,
) -> Result<(Caller<B>, CoordinatorCell<D, B>, Vec<ShardCell<D, B>>), Refusal>
    requires own { (log.table ≡ B.log) × (tried.table ≡ B.attempts) }
    requires empty { (log.seen ≡ []) × (log.horizon ≡ 0) × (tried.seen ≡ []) }
    requires count { vec_len devices.old ≡ 2 * (B.shards + 1) }
    requires honest { All D.honest devices.old.items }
    requires rests { B.rests → RestAt D.state D.honest B.shards B.first B.low devices.old.items }
    ensures found { IfOk result (λ opened. B.rests → HasFound B.first B.low opened.0.pass) }
    ensures all { IfOk result (λ opened. vec_len opened.2 ≡ B.shards) }
    ensures refused { IfErr result (RefusesStore D.state D.honest D.moment D.left_since B.store B.shards devices.old.items) }
{
    // Taken first, while there is little to let go if there is no memory for it.
    let room = BatchRoom::new(ground.alloc)?;
    let mut side = open_coordinator(ground, log, tried, devices)?;
    let caller = side.session(ground.lists);
    match shard_cells(rt, ground, launch_log, &mut side, devices) {
        Ok(cells) => {
            let coordinator = coordinator_cell(ground, launch_log, side, room);
            Ok((caller, coordinator, cells))
        }
        Err(_) => {
            drop(side);
            drop(room);
            drop(caller);
            Err(Refusal::NoMemory)
        }
    }
}

impl<D: Device, B: Room, G: Gate> Store<D, B, G> {
    /// Opens the store with this id and of 1 to 64 shards over its devices: those of the coordinator, and then those of each shard, by rising number, bank a
    /// before bank b. If they rest at a list, all that is said of the list is said of that one and of what joins it. A shard whose opening is refused
    /// holds that refusal, and can be restarted; that of the coordinator's opening, or `NoMemory`, refuses the store. With it comes a first caller, which knows
    /// what was found, and can tell the others. Shards are opened side by side.
    pub fn open<R: Threads + Sync>(
        rt: &R,
        alloc: Global,
        gate: G,
        parts: Parts,
        mut devices: Vec<D>,
        store: u64,
        shards: Shards,
    ) -> Result<(Store<D, B, G>, Caller<B>), Refusal>
    where
        D: Send,
        B: Send,
        requires own { (parts.words ≡ B.log) × (parts.log.table ≡ B.log) }
        requires empty { (parts.log.seen ≡ []) × (parts.log.horizon ≡ 0) }
        requires tried { parts.attempts ≡ B.attempts }
        requires flights { parts.launches ≡ B.launches }
        requires of { (store ≡ B.store) × (shards ≡ B.shards) }
        requires count { vec_len devices ≡ 2 * (shards + 1) }
        requires honest { All D.honest devices.items }
        requires rests { B.rests → RestAt D.state D.honest B.shards B.first B.low devices.items }
        ensures found { IfOk result (λ opened. B.rests → HasFound B.first B.low opened.1.pass) }
        ensures refused { IfErr result (RefusesStore D.state D.honest D.moment D.left_since B.store B.shards devices.items) }
    {
        let Parts {
            bell,
            words,
            log,
            attempts,
            launches,
        } = parts;
        let (attempts, tried) = attempts.into_parts();
        let (launches, mut launch_log) = launches.into_parts();
        let lists = Lists::new(words, attempts, launches);
        let ground = Ground {
            alloc,
            lists: &lists,
            store,
            shards,
        };
        let opened = open_nodes(rt, &ground, &mut launch_log, log, tried, &mut devices);
        drop(ground);
        drop(devices);
        match opened {
            Ok((caller, coordinator, cells)) => {
                let store = Store {
                    gate,
                    bell,
                    closed: AtomicBool::new(false),
                    is_called: AtomicBool::new(true),
                    lists,
                    coordinator,
                    launch_log: Mutex::new(launch_log),
                    shards: cells,
                    count: shards,
                };
                Ok((store, caller))
            }
            Err(refusal) => {
                drop(gate);
                drop(bell);
                drop(lists);
                drop(launch_log);
                Err(refusal)
            }
        }
    }
}
