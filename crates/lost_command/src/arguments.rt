//! The command line.
use clap::{Arg, ArgAction, Command, Error, value_parser};
use std::alloc::Global;

const HELP: &str =
    "Examples:\n  lostd replay --name lost.example --now 2026-01-01T00:00:00Z < examples/one-mapping.jsonl\n  \
lostd check examples/one-mapping.jsonl\n  \
lostd serve --name lost.example --queries 127.0.0.1:5222 --desk 127.0.0.1:5223 --workers 4 --connections 1000\n\n\
`lostd COMMAND --help` explains the arguments and the exit status.";

const REPLAY_HELP: &str =
    "Each line of standard input is one JSON object. Desk lines (`publish`, `replace`, `withdraw`, `commit`) change \
the mappings; all other lines are requests (`findService`, `listServicesByLocation`, `listServices`, \
`getServiceBoundary`). Each line gets one line of reply on standard output, as soon as it is answered.\n\n\
Example:\n  lostd replay --name lost.example --now 2026-01-01T00:00:00Z < examples/one-mapping.jsonl\n\n\
With --summary, or if standard error is a terminal, it ends with a line on standard error: how many lines it answered, \
how many it refused, and how many edits are published.\n\n\
Exit status: 0 at the end of the input; 1 if standard input or output fails, the input has more lines than --lines \
allows, or memory runs out at the start; 2 for a mistake on the command line.";

const CHECK_HELP: &str =
    "It reads the same lines as `lostd replay`. For each line that would be refused or answered `badRequest`, it \
prints the line's number, the code and name of the refusal, and the cause with its place in the line. Lines count \
from 1, and items of a list from 0:\n  \
line 12: 9 BadRegion: serviceBoundary[2].polygon: the last position is not the first\n\
It prints nothing about other lines. --name and --now change nothing of that. At the end it prints `done lines=L refused=R badRequest=B internalError=I \
edition=E`: how many lines it read, how many of them would be refused or answered `badRequest`, how many it could not \
check because memory ran out, and how many edits would be published. Of several files each is checked by itself, \
behind a line with its name. If standard error is a terminal, it shows its \
progress there, every 100,000 lines.\n\n\
With --journal FILE it reads a server's journal as the server does at its start, and changes nothing; the server may \
run meanwhile. It prints `done lines=L edition=E mappings=M map=D dropped=B`: how many lines are kept, how many edits are \
published and how many mappings held by them, the digest of that map, and how many bytes, which a crash left behind \
the last commit, the server would drop. If the journal is damaged, standard error gives the line, its offset in bytes \
and the cause.\n\n\
Example:\n  lostd check examples/one-mapping.jsonl\n\n\
Exit status: 0 if all lines are good; 1 if a file cannot be read, standard input or output fails, the input has more lines than --lines \
allows, or memory runs out at the start; 2 for a mistake on the command line; 3 if a line would be refused or answered \
`badRequest`, or could not be checked, and if a journal is damaged.";

const COMPACT_HELP: &str =
    "It reads a server's journal as `lostd check --journal` does, and writes to standard output a journal that keeps the \
same map and the same withdrawals in one commit. Its map has the same digest; its edition begins again, at two for each \
withdrawal and one for each mapping. Standard error gives both editions and digests.\n\n\
Stop the server first: what it commits meanwhile is not in the new journal. Then put the new file in the place of the \
old one, and start the server.\n\n\
Example:\n  lostd compact --journal lost.journal > new.journal\n\n\
Exit status: 0 if the new journal is whole; 1 if the journal cannot be read, standard output fails, a line would be \
longer than a line may be, or memory runs out; 2 for a mistake on the command line; 3 if the journal is damaged.";

const AUDIT_HELP: &str =
    "It reads a log of answers (`lostd serve --log`) from standard input, and the server's journal beside it. Each question \
is answered again from the book of the edition that its line names, at its moment. A line on standard output names each \
reply that is another one, with the right reply, and each line that cannot be judged. At the end it prints `done lines=L \
differ=D unjudged=U internalError=I leftOut=O edition=E`: the lines of the log, the replies that differ, the lines that \
were not judged, the replies that were internalError, which nothing can judge, the answers that the log itself says it \
left out, and the last edition that was reached.\n\n\
The lines of a log are in order of time, and nearly so of editions: 65,536 lines wait to be judged in order. A line that \
comes later than that is not judged; sort such a log first:\n  \
sort -s -t, -k2.11,2n answers.log | lostd audit --journal lost.journal --name lost.example\n\n\
With digests of replies in the log the right reply is told, and of the one that was given its digest.\n\n\
Example:\n  lostd audit --journal lost.journal --name lost.example < answers.log\n\n\
Exit status: 0 if each reply is right; 1 if the journal cannot be read, standard input or output fails, or memory runs \
out; 2 for a mistake on the command line; 3 if a reply differs or a line was not judged, or the journal is damaged.";

const EXPLAIN_HELP: &str =
    "It reads a server's journal up to the commit that made the edition, and answers the request lines of standard input \
from the book of that edition at the time of --now, as the server of this name would have. Without --edition it is the \
edition that was published at that time, by the times in the journal's commits. Each line gets one line of reply.\n\n\
Example:\n  \
echo '{\"listServices\":{}}' | lostd explain --journal lost.journal --name lost.example --now 2026-01-01T00:00:00Z\n\n\
Exit status: 0 at the end of the input; 1 if the journal cannot be read or has no such edition, standard input or output \
fails, or memory runs out; 2 for a mistake on the command line; 3 if the journal is damaged.";

const SERVE_HELP: &str =
    "The server reads its map, if it has one, then listens and prints `ready`. Query connections send requests \
(`findService`, `listServicesByLocation`, `listServices`, `getServiceBoundary`); desk connections send desk lines \
(`publish`, `replace`, `withdraw`, `commit`). Each line is one JSON object and gets one line of reply.\n\n\
The map is a file of desk lines; `-` is standard input. For each refused line, standard error gives the number, the \
code and the cause, as `lostd check` does. If a line is refused, or no commit follows the last edit, the server ends \
with status 3 before it listens. With --keep-going it starts with the edits that were accepted and committed. \
Without --journal the server saves nothing: give it its map at each start.\n\n\
--journal FILE keeps what desks commit: each commit is on the disk before its desk reads `committed` and before any \
reply goes by it, and at the next start the server publishes what the file keeps before it listens. With --map it \
begins a new journal with that map; beside a journal that keeps edits, a map is not read, and the server ends with \
status 2. At least one of --desk, --map and --journal must be given. The journal is a file of desk lines, which `lostd \
check` and --map read too. Bytes that a crash left behind the last commit are dropped; anything else wrong is damage, \
which ends the server with status 3, and the file stays as it is.\n\n\
--log FILE adds a line for each request line that is answered, with the moment and the edition that the answer went by, \
so that `lostd audit` can judge the answer again years later. One thread writes it, and no answer waits for it: where \
the file takes too few lines, the others are left out, and a line says how many and between which times. Rotate it by renaming it, or by copying and cutting it. It holds locations of callers: only \
its owner may read it.\n\n\
Without --connections the server runs until a signal ends it. Desks are served one after another: a second desk waits \
until the first has ended. A desk is disconnected if it sends no whole line in the first 10 seconds of its turn; if, \
while another waits, it sends no whole line or takes no reply for 10 seconds; or if it speaks TLS. Edits \
without a commit are dropped when the desk's connection ends. The desk's address also answers HTTP: GET /map gives \
the published map as desk lines. With --connections N the server serves one desk \
connection and N query connections. When all have ended, it prints `done lines=L faults=F`: how many lines it answered, and how many query connections ended in a \
fault.\n\n\
Each worker watches many connections and answers lines as they come; a slow client keeps nobody waiting. A client \
with 1 MiB of replies waiting is not read until it takes some. Without --connections, a connection ends when its input \
ends, when it fails, or when it passes a limit: --line-time stops clients that send a line byte by byte, --reply-time those that do not \
take their replies, --idle those that are gone. A connection over --most-connections or --per-address is closed at \
once, so that no client keeps the others out. Standard error names connections that fail or pass a limit, at most ten \
a second.\n\n\
With --connections a connection ends when its input ends, when it fails, after 1,000,000 lines, or after --idle \
without a byte that it sends or, while replies wait, takes; the other limits do not apply. One that comes while the \
system lets the server open no more waits.\n\n\
An address is HOST:PORT, such as 127.0.0.1:5222, [::1]:5222 or localhost:5222, or unix:PATH for a Unix socket. Only \
its owner may use the socket's file, unless --socket-mode allows more.\n\n\
--status answers HTTP: GET /health gives 200 once the server is ready, and 503 before; GET /metrics is for Prometheus; \
GET /status gives one JSON object.\n\n\
Example, with a query from another shell:\n  \
lostd serve --name lost.example --map examples/maps/two-districts.jsonl --queries 127.0.0.1:5222 --workers 4\n  \
echo '{\"listServices\":{}}' | nc -N 127.0.0.1 5222\n\n\
Exit status: 0 when all connections have ended; 1 if the map cannot be read, the journal cannot be opened or is in use, an address cannot be used, no connection \
can be accepted, standard output fails, or memory runs out outside the connections; 2 for a mistake on the command \
line, or a map beside a journal that keeps edits; 3 if a line of the map is refused or not committed, or the journal is damaged. SIGINT, SIGTERM and SIGHUP end the server at once.";

/// The whole command line, of the program of this version.
pub(crate) fn command<'a>(alloc: Global, version: &'static str) -> Result<Command<'a>, Error> {
    let command = Command::new(alloc, "lostd")
        .about(
            "A LoST server (RFC 5222) over JSON lines: it finds the emergency centre that serves a location",
        )
        .version(version)
        .after_help(HELP)
        .subcommand_required(true)
        .subcommand(replay_command(alloc)?)?
        .subcommand(check_command(alloc)?)?
        .subcommand(serve_command(alloc)?)?
        .subcommand(compact_command(alloc)?)?
        .subcommand(audit_command(alloc)?)?
        .subcommand(explain_command(alloc)?)?;
    Ok(command)
}

/// `lostd replay`.
fn replay_command<'a>(alloc: Global) -> Result<Command<'a>, Error> {
    let command = Command::new(alloc, "replay")
        .about(
            "Answers the desk lines and requests on standard input, in order, starting without mappings",
        )
        .after_help(REPLAY_HELP)
        .arg(name_argument(alloc))?
        .arg(now_argument(alloc))?
        .arg(lines_argument(alloc))?
        .arg(flag_argument(
            alloc,
            "summary",
            "Prints at the end, on standard error, how many lines were answered and refused",
        ))?;
    Ok(command)
}

/// `lostd check`.
fn check_command<'a>(alloc: Global) -> Result<Command<'a>, Error> {
    let command = Command::new(alloc, "check")
        .about(
            "Checks the desk lines and requests of files or of standard input, and prints which would be refused and why",
        )
        .after_help(CHECK_HELP)
        .arg(files_argument(alloc))?
        .arg(
            name_argument(alloc)
                .required(false)
                .default_value("localhost"),
        )?
        .arg(
            now_argument(alloc)
                .required(false)
                .default_value("1970-01-01T00:00:00Z"),
        )?
        .arg(lines_argument(alloc))?
        .arg(flag_argument(
            alloc,
            "quiet",
            "Prints only the counts, without the lines that would be refused",
        ))?
        .arg(journal_argument(
            alloc,
            "Checks the journal of a server in place of desk lines and requests",
        )
        .conflicts_with("files")?)?;
    Ok(command)
}

/// `lostd audit`.
fn audit_command<'a>(alloc: Global) -> Result<Command<'a>, Error> {
    let command = Command::new(alloc, "audit")
        .about("Judges the answers of a log again, from the journal of the server that gave them")
        .after_help(AUDIT_HELP)
        .arg(journal_argument(alloc, "The journal of the server").required(true))?
        .arg(name_argument(alloc))?;
    Ok(command)
}

/// `lostd explain`.
fn explain_command<'a>(alloc: Global) -> Result<Command<'a>, Error> {
    let command = Command::new(alloc, "explain")
        .about("Answers the requests on standard input as of an edition of a server's journal")
        .after_help(EXPLAIN_HELP)
        .arg(journal_argument(alloc, "The journal of the server").required(true))?
        .arg(number_argument(alloc, "edition", "The edition: 0 to 4294967295").value_parser(
            value_parser!(u32).range(0..),
        ))?
        .arg(name_argument(alloc))?
        .arg(now_argument(alloc))?;
    Ok(command)
}

/// `lostd compact`.
fn compact_command<'a>(alloc: Global) -> Result<Command<'a>, Error> {
    let command = Command::new(alloc, "compact")
        .about("Writes a server's journal anew, with the map that it keeps in one commit")
        .after_help(COMPACT_HELP)
        .arg(journal_argument(alloc, "The journal to read").required(true))?
        .arg(
            Arg::new(alloc, "drop-expired")
                .long("drop-expired")
                .value_name("TIME")
                .action(ArgAction::Set)
                .help(
                    "Leaves out mappings that have expired at this time, in UTC, such as 2026-01-01T00:00:00Z",
                ),
        )?;
    Ok(command)
}

/// `lostd serve`.
fn serve_command<'a>(alloc: Global) -> Result<Command<'a>, Error> {
    let command = Command::new(alloc, "serve")
        .about("Answers requests from many clients, while a map desk edits the boundaries")
        .after_help(SERVE_HELP)
        .arg(name_argument(alloc))?
        .arg(map_argument(alloc))?
        .arg(journal_argument(
            alloc,
            "The file that keeps the edits of desks: each commit is on the disk before the desk is told; a file that is not there is made",
        ))?
        .arg(log_argument(alloc))?
        .arg(log_replies_argument(alloc))?
        .arg(flag_argument(
            alloc,
            "keep-going",
            "Starts even if lines of the map are refused or not committed",
        ))?
        .arg(queries_argument(alloc))?
        .arg(address_argument(
            alloc,
            "desk",
            "The address for desk lines, from one desk at a time; with --map or --journal you may leave it out",
        ))?
        .arg(address_argument(
            alloc,
            "status",
            "The address for health checks and metrics, over HTTP",
        ))?
        .arg(socket_mode_argument(alloc))?
        .arg(workers_argument(alloc))?
        .arg(connections_argument(alloc))?
        .arg(seconds_argument(
            alloc,
            "idle",
            "Ends a query connection after this many seconds without a byte: 0 to 86400, 0 for no limit",
            "300",
        ))?
        .arg(seconds_argument(
            alloc,
            "desk-idle",
            "The same for a desk's connection, which keeps all other desks waiting",
            "0",
        ))?
        .arg(flag_argument(
            alloc,
            "quiet",
            "Prints nothing about connections on standard error",
        ))?;
    limited(alloc, command)
}

/// The limits on connections of a server without a fixed number of them.
fn limited<'a>(alloc: Global, command: Command<'a>) -> Result<Command<'a>, Error> {
    let line_time = seconds_argument(
        alloc,
        "line-time",
        "Ends a connection if a line takes more than this many seconds from its first byte to its end: 0 to 86400, 0 \
for no limit; not with --connections",
        "10",
    );
    let reply_time = seconds_argument(
        alloc,
        "reply-time",
        "Ends a connection if its client takes none of its waiting replies for this many seconds: 0 to 86400, 0 for \
no limit; not with --connections",
        "30",
    );
    let command = command
        .arg(line_time.conflicts_with("connections")?)?
        .arg(reply_time.conflicts_with("connections")?)?
        .arg(most_connections_argument(alloc).conflicts_with("connections")?)?
        .arg(per_address_argument(alloc).conflicts_with("connections")?)?;
    Ok(command)
}

fn files_argument<'a>(alloc: Global) -> Arg<'a> {
    Arg::new(alloc, "files")
        .value_name("FILE")
        .num_args(0..)
        .action(ArgAction::Append)
        .help("The files to check, each by itself; without one, standard input")
}

fn map_argument<'a>(alloc: Global) -> Arg<'a> {
    Arg::new(alloc, "map")
        .long("map")
        .value_name("FILE")
        .action(ArgAction::Set)
        .help(
            "The file of desk lines that the server reads before it listens, of any length; - is standard input",
        )
}

fn journal_argument<'a>(alloc: Global, help: &'static str) -> Arg<'a> {
    Arg::new(alloc, "journal")
        .long("journal")
        .value_name("FILE")
        .action(ArgAction::Set)
        .help(help)
}

fn log_argument<'a>(alloc: Global) -> Arg<'a> {
    Arg::new(alloc, "log")
        .long("log")
        .value_name("FILE")
        .action(ArgAction::Set)
        .help(
            "The file that gets a line for each request line that is answered; see `lostd audit --help`",
        )
}

fn log_replies_argument<'a>(alloc: Global) -> Arg<'a> {
    Arg::new(alloc, "log-replies")
        .long("log-replies")
        .value_name("WHAT")
        .action(ArgAction::Set)
        .value_parser(["whole", "digest", "none"].as_slice())
        .default_value("digest")
        .help("What the log keeps of replies: their texts, digests of them, or nothing")
}

fn queries_argument<'a>(alloc: Global) -> Arg<'a> {
    address_argument(
        alloc,
        "queries",
        "The address for requests: HOST:PORT, such as 127.0.0.1:5222, or unix:PATH",
    )
    .required(true)
}

fn address_argument<'a>(alloc: Global, name: &'static str, help: &'static str) -> Arg<'a> {
    Arg::new(alloc, name)
        .long(name)
        .value_name("ADDRESS")
        .action(ArgAction::Set)
        .help(help)
}

fn socket_mode_argument<'a>(alloc: Global) -> Arg<'a> {
    Arg::new(alloc, "socket-mode")
        .long("socket-mode")
        .value_name("MODE")
        .action(ArgAction::Set)
        .help("The file mode of Unix sockets, in octal digits, such as 0660")
        .default_value("0600")
}

fn number_argument<'a>(alloc: Global, name: &'static str, help: &'static str) -> Arg<'a> {
    Arg::new(alloc, name)
        .long(name)
        .value_name("NUMBER")
        .action(ArgAction::Set)
        .help(help)
}

fn workers_argument<'a>(alloc: Global) -> Arg<'a> {
    number_argument(
        alloc,
        "workers",
        "How many threads answer requests: 1 to 64",
    )
    .value_parser(value_parser!(u32).range(1..=64))
    .required(true)
}

fn connections_argument<'a>(alloc: Global) -> Arg<'a> {
    number_argument(
        alloc,
        "connections",
        "Serves this many query connections and then ends: 1 to 1000000; without it the server does not end",
    )
    .value_parser(value_parser!(u32).range(1..=1_000_000))
}

fn most_connections_argument<'a>(alloc: Global) -> Arg<'a> {
    number_argument(
        alloc,
        "most-connections",
        "How many query connections may be open at once: 1 to 1000000; not with --connections",
    )
    .value_parser(value_parser!(u32).range(1..=1_000_000))
    .default_value("65536")
}

fn per_address_argument<'a>(alloc: Global) -> Arg<'a> {
    number_argument(
        alloc,
        "per-address",
        "How many query connections one address may have open: 0 to 1000000, 0 for no limit; not with --connections",
    )
    .value_parser(value_parser!(u32).range(0..=1_000_000))
    .default_value("1024")
}

fn seconds_argument<'a>(
    alloc: Global,
    name: &'static str,
    help: &'static str,
    usual: &'static str,
) -> Arg<'a> {
    number_argument(alloc, name, help)
        .value_name("SECONDS")
        .value_parser(value_parser!(u32).range(0..=86_400))
        .default_value(usual)
}

fn flag_argument<'a>(alloc: Global, name: &'static str, help: &'static str) -> Arg<'a> {
    Arg::new(alloc, name)
        .long(name)
        .action(ArgAction::SetTrue)
        .help(help)
}

fn lines_argument<'a>(alloc: Global) -> Arg<'a> {
    number_argument(
        alloc,
        "lines",
        "Reads at most this many lines: 1 to 4294967295",
    )
    .value_parser(value_parser!(u32).range(1..))
    .default_value("1000000")
}

fn name_argument<'a>(alloc: Global) -> Arg<'a> {
    Arg::new(alloc, "name")
        .long("name")
        .value_name("NAME")
        .required(true)
        .action(ArgAction::Set)
        .help(
            "The server's name in LoST paths: labels of letters, digits and hyphens, joined by single dots",
        )
}

fn now_argument<'a>(alloc: Global) -> Arg<'a> {
    Arg::new(alloc, "now")
        .long("now")
        .value_name("TIME")
        .required(true)
        .action(ArgAction::Set)
        .help("The time that every answer uses, in UTC, such as 2026-01-01T00:00:00Z")
}
