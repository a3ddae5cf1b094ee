// Locks that are held for a few microseconds at a time.
use std::hint::spin_loop;
use std::sync::{Mutex, MutexGuard, RwLock, RwLockReadGuard, RwLockWriteGuard, Wait};

// How often one is tried before its caller sleeps: for some ten microseconds, as a try and the pause after it take twenty-five nanoseconds or more. Who sleeps
// waits for a processor after it, and each hold that ends meanwhile costs a call of the system.
const TRIES: u32 = 400;

/// What lies under the lock, locked.
pub(crate) fn lock_soon<'a, T, R: Wait>(rt: &R, mutex: &'a Mutex<T>) -> MutexGuard<'a, T> {
    for _ in 0..TRIES {
        if let Some(guard) = mutex.try_lock() {
            return guard;
        }
        spin_loop();
    }
    mutex.lock(rt)
}

/// What lies under the lock, while others may read it too.
pub(crate) fn read_soon<'a, T, R: Wait>(rt: &R, lock: &'a RwLock<T>) -> RwLockReadGuard<'a, T> {
    for _ in 0..TRIES {
        if let Some(guard) = lock.try_read() {
            return guard;
        }
        spin_loop();
    }
    lock.read(rt)
}

/// What lies under the lock, for nobody else.
pub(crate) fn write_soon<'a, T, R: Wait>(rt: &R, lock: &'a RwLock<T>) -> RwLockWriteGuard<'a, T> {
    for _ in 0..TRIES {
        if let Some(guard) = lock.try_write() {
            return guard;
        }
        spin_loop();
    }
    lock.write(rt)
}
