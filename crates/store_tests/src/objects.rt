use crate::checks::same_at;
use kernel_objects::{FutexQueue, Pipes};
use std::alloc::{AllocError, Global};
use std::process::Abort;

// thread 1 asleep on the first word of frame 7, and then 2 and 3 on its second
fn three_sleepers(alloc: Global) -> Result<FutexQueue, AllocError> {
    let mut queue = FutexQueue::reserve(alloc)?;
    queue.add(1, 7, 0);
    queue.add(2, 7, 4);
    queue.add(3, 7, 4);
    Ok(queue)
}

fn remove(queue: &mut FutexQueue, tid: u32) {
    queue.remove(tid);
}

fn check_woken(rt: &impl Abort, queue: &mut FutexQueue, offset: u32, wanted: Option<u32>) {
    same_at(rt, queue.wake_one(7, offset), wanted, "offset", offset);
}

#[test]
fn the_first_sleeper_on_a_word_wakes(rt: HostRuntime) {
    let mut queue = three_sleepers(rt.alloc()).expect(&rt, "memory");
    check_woken(&rt, &mut queue, 4, Some(2));
    remove(&mut queue, 1);
    check_woken(&rt, &mut queue, 0, None);
    check_woken(&rt, &mut queue, 4, Some(3));
    check_woken(&rt, &mut queue, 4, None);
    drop(queue);
}

// The first pipe, with three bytes in it and two ends that read.
fn three_bytes(rt: &impl Abort, alloc: Global) -> Result<Pipes, AllocError> {
    let mut pipes = Pipes::reserve(alloc)?;
    assert!(rt; pipes.open() == Some(0));
    pipes.add_end(0, false);
    assert!(rt; pipes.give(0, &[1, 2, 3]) == 3);
    Ok(pipes)
}

// The first two bytes of the first pipe.
fn check_taken(rt: &impl Abort, pipes: &mut Pipes, wanted: [u8; 2]) {
    let mut buffer = [0_u8; 2];
    assert!(rt; pipes.take(0, &mut buffer) == 2);
    assert!(rt; buffer == wanted);
}

fn check_len(rt: &impl Abort, pipes: &Pipes, wanted: u32) {
    assert!(rt; pipes.len(0) == wanted);
}

#[test]
fn bytes_go_through_a_pipe_in_order(rt: HostRuntime) {
    let mut pipes = three_bytes(&rt, rt.alloc()).expect(&rt, "memory");
    check_taken(&rt, &mut pipes, [1, 2]);
    check_len(&rt, &pipes, 1);
    drop(pipes);
}
