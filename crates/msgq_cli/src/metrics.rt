//! What is told of the queues of a system in the text format of Prometheus.

ghost use Rattle.std.specs.Prelude.{◌≡◌, ◌<◌, ◌^◌};
ghost use Rattle.queue_model.specs.Selection.{total_bytes};
ghost use Rattle.msgq_cli.specs.Metrics.{family_text, help_of, help_text, kind_of, kind_text, metrics_text, name_of, sample_text, samples_text, value_of};
ghost use Rattle.msgq_cli.specs.Outputs.{Prints};

use crate::output::Output;
use crate::printed_word::PrintedWord;
use queue_model::{Queue, System};
use std::io::Write;

/// A number that is told of each queue.
#[derive(Clone, Copy)]
pub enum Metric {
    /// Messages on it.
    Messages,
    /// The bytes that they have together.
    Bytes,
    /// As many bytes may they have together.
    Limit,
    /// Messages that were sent to it since it was made.
    Sent,
    /// Messages that were received from it since it was made.
    Received,
    /// The moment of the last send, in seconds since the beginning of 1970; 0 before the first.
    LastSend,
    /// The moment of the last receive, as that.
    LastReceive,
}

impl Metric {
    /// Its name.
    fn name(self) -> &'static [u8]
        ensures { result.now ≡ name_of self }
    {
        match self {
            Metric::Messages => b"msgq_queue_messages",
            Metric::Bytes => b"msgq_queue_bytes",
            Metric::Limit => b"msgq_queue_limit_bytes",
            Metric::Sent => b"msgq_queue_sent_total",
            Metric::Received => b"msgq_queue_received_total",
            Metric::LastSend => b"msgq_queue_last_send_timestamp_seconds",
            Metric::LastReceive => b"msgq_queue_last_receive_timestamp_seconds",
        }
    }

    /// What it is, in a line.
    fn help(self) -> &'static [u8]
        ensures { result.now ≡ help_of self }
    {
        match self {
            Metric::Messages => b"Messages on the queue.",
            Metric::Bytes => b"Bytes of the messages on the queue.",
            Metric::Limit => b"As many bytes the messages on the queue may have together.",
            Metric::Sent => b"Messages sent to the queue since it was made.",
            Metric::Received => b"Messages received from the queue since it was made.",
            Metric::LastSend => b"When a message was last sent to the queue, 0 for never.",
            Metric::LastReceive => b"When a message was last received from the queue, 0 for never.",
        }
    }

    /// Whether it only grows.
    fn kind(self) -> &'static [u8]
        ensures { result.now ≡ kind_of self }
    {
        match self {
            Metric::Sent | Metric::Received => b"counter",
            Metric::Messages | Metric::Bytes | Metric::Limit => b"gauge",
            Metric::LastSend | Metric::LastReceive => b"gauge",
        }
    }

    /// What it is of a queue. Serials are given out from 1 on, one a message that was sent.
    fn value(self, queue: &Queue) -> u64
        requires { total_bytes queue.now.messages < 2 ^ 64 }
        ensures { result ≡ value_of self queue.now }
    {
        let sent = queue.next_serial.saturating_sub(1);
        match self {
            Metric::Messages => queue.messages.len() as u64,
            Metric::Bytes => queue.messages.total_bytes() as u64,
            Metric::Limit => u64::from(queue.qbytes),
            Metric::Sent => sent,
            Metric::Received => sent.saturating_sub(queue.messages.len() as u64),
            Metric::LastSend => queue.stime,
            Metric::LastReceive => queue.rtime,
        }
    }
}

/// Prints each metric of the queues of a system: what it is, and its value for each queue, in order of
/// id.
pub fn print_metrics<W: Write + Drop>(system: &System, output: &mut Output<W>)
    ensures { Prints output.old output.new (metrics_text system.now) }
{
    print_family(Metric::Messages, system, output);
    print_family(Metric::Bytes, system, output);
    print_family(Metric::Limit, system, output);
    print_family(Metric::Sent, system, output);
    print_family(Metric::Received, system, output);
    print_family(Metric::LastSend, system, output);
    print_family(Metric::LastReceive, system, output);
}

/// Prints a metric.
fn print_family<W: Write + Drop>(metric: Metric, system: &System, output: &mut Output<W>)
    ensures { Prints output.old output.new (family_text metric system.now) }
{
    print_help(metric, output);
    print_kind(metric, output);
    print_samples(metric, system, output);
}

/// Prints what a metric is.
fn print_help<W: Write + Drop>(metric: Metric, output: &mut Output<W>)
    ensures { Prints output.old output.new (help_text metric) }
{
    output.line(&[
        PrintedWord::Text(b"# HELP"),
        PrintedWord::Text(metric.name()),
        PrintedWord::Text(metric.help()),
    ]);
}

/// Prints of which kind a metric is.
fn print_kind<W: Write + Drop>(metric: Metric, output: &mut Output<W>)
    ensures { Prints output.old output.new (kind_text metric) }
{
    output.line(&[
        PrintedWord::Text(b"# TYPE"),
        PrintedWord::Text(metric.name()),
        PrintedWord::Text(metric.kind()),
    ]);
}

/// Prints the value of a metric for each queue.
fn print_samples<W: Write + Drop>(metric: Metric, system: &System, output: &mut Output<W>)
    ensures { Prints output.old output.new (samples_text metric system.now.queues) }
{
    system.keeps_limits();
    for place in 0..system.queues() {
        print_sample(metric, system.queue(place), output);
    }
}

/// Prints the value of a metric for a queue.
fn print_sample<W: Write + Drop>(metric: Metric, queue: &Queue, output: &mut Output<W>)
    requires { total_bytes queue.now.messages < 2 ^ 64 }
    ensures { Prints output.old output.new (sample_text metric queue.now) }
{
    output.line(&[
        PrintedWord::Labelled(metric.name(), queue.id, queue.key),
        PrintedWord::Number(metric.value(queue)),
    ]);
}
