// Lines once the server is ready.
use crate::stamp::Stamp;
use serving::Begun;
use std::io::{self, Eprint, Print, Write};
use std::net::SocketAddr;
use std::sync::atomic::{AtomicU64, Ordering};
use std::time::Clock;

/// Once as many threads run as there are to be, tells the address on standard error and prints `ready`.
#[derive(Drop)]
pub(crate) struct Readiness<'a, R: Print> {
    rt: &'a R,
    missing: AtomicU64,
    // none if the system does not tell it
    address: Option<SocketAddr>,
}

impl<'a, R: Print> Readiness<'a, R> {
    /// Of so many threads none runs so far.
    pub(crate) fn new(rt: &'a R, threads: u64, address: Option<SocketAddr>) -> Readiness<'a, R> {
        Readiness {
            rt,
            missing: AtomicU64::new(threads),
            address,
        }
    }
}

impl<R: Print + Eprint + Clock> Begun for Readiness<'_, R> {
    fn note(&self) {
        if self.missing.fetch_sub(1, Ordering::SeqCst) == 1 {
            tell_address(self.rt, self.address);
            if let Err(error) = print_ready(self.rt) {
                // The reader of the line may be gone, which keeps nobody from being served.
                let stamp = Stamp::now(self.rt);
                let _ = eprintln!(self.rt;
                    "zanstore: {stamp}ready, which can't be printed: {error}"
                );
            }
        }
    }
}

// With its port, which the system chose if 0 was asked for.
fn tell_address(rt: &(impl Eprint + Clock), address: Option<SocketAddr>) {
    if let Some(address) = address {
        let stamp = Stamp::now(rt);
        let _ = eprintln!(rt; "zanstore: {stamp}listening at {address}");
    }
}

fn print_ready(rt: &impl Print) -> io::Result<()> {
    println!(rt; "ready")?;
    io::writer(rt).flush()
}
