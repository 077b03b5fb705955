// A script is run: its lines by the server, and its blocks where they end.
ghost use Rattle.std.specs.Prelude.{◌≡◌, ◌+◌, ◌^◌, ◌≤◌, List, ℕ, Option, IfSome};
ghost use Rattle.store_api.specs.Disk.{now};
ghost use Rattle.script_loop.specs.Ends.{DoneAtEnd, SinkCause, SourceCause};
ghost use Rattle.script_loop.specs.Pauses.{ComesTo, EndsOver, HasRoom, NextWithin, RoomBehind, SinkSays, SourceSays, Stands};
ghost use Rattle.script_loop.specs.Runs.{Says};
ghost use Rattle.tsm_top.specs.Servers.{HaltsBy, Serves, can_take};
ghost use Rattle.tsm_top.specs.declared.server.Server.{Server as IsServer};

use crate::server::{Server, end_block};
use client_trees::Tree;
use crew::Gate;
use script_loop::{End, Progress, answered, begin, run};
use std::alloc::Global;
use std::sync::Wait;
use std::thread::Threads;
use store_api::Store;
use tree_api::{Sink, Source};

/// A store that tells its bytes counts its moments as it tells them.
pub(crate) fn clocks_agree<S: Store>()
    ensures { (s : S) → IfSome (S.told s) (λ h. now h ≡ S.moment_of s) }
{}

/// Goes on with a script up to the end of a block, which is run, or up to its own. It answers how the run ended; or nothing, where it goes on.
fn run_part<
    S: Store + Send,
    T: Tree + Drop + Send,
    I: Source,
    O: Sink,
    R: Threads + Wait + Sync,
    G: Gate + Sync,
>(
    rt: &R,
    gate: &G,
    alloc: Global,
    progress: &mut Progress,
    server: Server<S, T>,
    script: &mut I,
    out: &mut O,
) -> (Server<S, T>, Option<End>)
    requires within { progress.old.next ≤ 2 ^ 20 + 1 }
    requires room { HasRoom (λ s left. can_take left s) progress.old server }
    requires stands { (start : IsServer S T) × (first : Option (List ℕ)) × (contents : Option (List ℕ)) × Stands (Serves S.told S.moment_of S.faults_of T.files T.fault_count) start first contents progress.old server (I.left script.old) (O.contents out.old) }
    ensures comes { (start : IsServer S T) (first contents : Option (List ℕ)) → Stands (Serves S.told S.moment_of S.faults_of T.files T.fault_count) start first contents progress.old server (I.left script.old) (O.contents out.old)
        → ComesTo (Serves S.told S.moment_of S.faults_of T.files T.fault_count) (HaltsBy S.told S.moment_of S.faults_of T.files T.fault_count) start first contents progress.new result.0 (I.left script.new) (O.contents out.new) result.1 }
    ensures next { NextWithin result.1 (progress.old.next + 1) (2 ^ 20 + 1) progress.new.next }
    ensures room { RoomBehind result.1 (λ s left. can_take left s) progress.new result.0 }
    ensures end { EndsOver result.1 progress.new.over (I.left script.new) }
    ensures source { SourceSays result.1 (I.fault_count script.old) (I.fault_count script.new) }
    ensures sink { SinkSays result.1 (O.fault_count out.old) (O.fault_count out.new) }
{
    let mut server = server;
    match run(alloc, progress, &mut server, script, out) {
        Some(end) => return (server, Some(end)),
        None => {}
    }
    let number = progress.number();
    let (server, reply) = end_block(rt, gate, alloc, server, number);
    let ended = answered(&server, progress, reply, out);
    (server, ended)
}

/// Runs a script from its first line on.
pub(crate) fn answer_script<
    S: Store + Send,
    T: Tree + Drop + Send,
    I: Source,
    O: Sink,
    R: Threads + Wait + Sync,
    G: Gate + Sync,
>(
    rt: &R,
    gate: &G,
    alloc: Global,
    server: Server<S, T>,
    script: &mut I,
    out: &mut O,
) -> (Server<S, T>, End)
    requires { can_take (2 ^ 20) server }
    ensures says { Says (Serves S.told S.moment_of S.faults_of T.files T.fault_count) (HaltsBy S.told S.moment_of S.faults_of T.files T.fault_count) server result.0 (I.left script.old) (O.contents out.old) (O.contents out.new) result.1 }
    ensures end { DoneAtEnd result.1 (I.left script.new) }
    ensures source { SourceCause result.1 (I.fault_count script.old) (I.fault_count script.new) }
    ensures sink { SinkCause result.1 (O.fault_count out.old) (O.fault_count out.new) }
{
    let mut progress = match begin(alloc, &server, out) {
        Ok(progress) => progress,
        Err(end) => return (server, end),
    };
    let mut server = server;
    'parts: loop {
        let (next, ended) = run_part(rt, gate, alloc, &mut progress, server, script, out);
        server = next;
        match ended {
            Some(end) => return (server, end),
            None => {}
        }
    }
}
