// A board that is read while its writer posts.
ghost use Rattle.std.specs.Prelude.{◌≡◌, []};
ghost use Rattle.monitors.specs.Examples.{running_after};

use dta_model::Eight;
use monitors::{Board, MonitorPass, WriterPass};
use std::sync::Wait;
use std::test::Fail;
use std::thread::join;

const POSTS: u64 = 10_000;

// After so many steps one vehicle runs, on the first link.
fn one_runs(steps: u64) -> Eight
    ensures { result ≡ running_after steps }
{
    Eight {
        steps,
        waiting: 0,
        running: 1,
        arrived: 0,
        first: [1, 0, 0, 0],
    }
}

// Posts the states after 1 step, after 2 and so on.
#[tactic(auto, using(crate::proofs::Posts::posts))]
fn post_all<R: Wait>(rt: &R, board: &Board, writer: WriterPass) -> WriterPass
    requires own { writer.board ≡ board.now }
    requires new { writer.list ≡ [] }
    ensures { result.board ≡ board.entry.now }
{
    let mut writer = writer;
    for done in 0..POSTS {
        board.post(rt, &mut writer, one_runs(done + 1));
    }
    writer
}

// Reads again and again, with a pass that sees the board and one that learns from it. Says whether
// the steps that they read never fell.
fn watch<R: Wait>(rt: &R, board: &Board, pass: MonitorPass) -> (MonitorPass, bool)
    requires { pass.board ≡ board.now }
    ensures { result.0.board ≡ board.entry.now }
{
    let (mut sees, mut learns) = board.split(rt, pass);
    let mut most = 0;
    let mut rises = true;
    for _ in 0..POSTS {
        let seen = board.read(rt, &mut sees).steps;
        let (pass, note) = board.share(rt, sees);
        sees = pass;
        learns = board.learn(rt, learns, note);
        let learnt = board.read(rt, &mut learns).steps;
        rises = rises && most <= seen && seen <= learnt;
        most = learnt;
    }
    (learns, rises)
}

#[test]
fn a_monitor_reads_while_the_writer_posts(rt: HostRuntime) -> Result<(), Fail> {
    let (board, writer, monitor) = Board::new(&rt)?;
    let (writer, (monitor, rises)) = join(
        &rt,
        || post_all(&rt, &board, writer),
        || watch(&rt, &board, monitor),
    );
    assert!(rt; rises);
    let (_writer, _monitor, last) = board.settle(&rt, writer, monitor);
    assert_eq!(rt; last, one_runs(POSTS));
    Ok(())
}
