//! What help says of each command, and after its options. A terminal shows these lines as they are here.

/// What the program does.
pub const DESK_ABOUT: &str =
    r#"Evaluates decision services after DMN 1.3, and hands each client its results in the order of
its requests"#;

/// What `replay` does.
pub const REPLAY_ABOUT: &str =
    "Answers the lines of standard input, one after another, on standard output";

/// What `serve` does.
pub const SERVE_ABOUT: &str =
    "Answers the lines of many clients at once, each client's in the order of its lines";

/// What `check` does.
pub const CHECK_ABOUT: &str = "Says whether a model is valid, and otherwise where it is wrong";

/// What `explain` does.
pub const EXPLAIN_ABOUT: &str =
    "Answers the lines of serve one after another, and reports how each result came about";

/// Lines, statuses and documents.
pub const DESK: &str =
    r#"Standard input has one JSON object on each line, and so has standard output.

Example:
  desk serve --workers 4 < examples/clients.jsonl

Status:
  0  the input was answered to its end; or help or the version was asked for
  1  a fault ended the run; standard error has one word for it: read, write, long or memory
  2  the command line is wrong
  3  the model that was checked has a fault
  4  the model is valid, but check --tables --strict refuses a decision table of it, or
     check --strict-null what a service can give

Documents, in the repository:
  README.md           a first run, and a model of one's own
  docs/LINES.md       every line, its answers, and the status
  docs/MODEL.md       models and their expressions
  docs/OPERATIONS.md  running it: options, systemd, limits, a new model or program, stopping
  docs/desk.1         this as a manual page (man -l docs/desk.1)

Licence: MIT or Apache-2.0, as you choose (LICENSE, NOTICE)."#;

/// The lines of `replay`.
pub const REPLAY: &str = r#"Each line is one JSON object:
  {"model":M}                                      a model, in force from the next line on
  {"open":"ann","capacity":2}                      a client with room for two requests
  {"submit":"ann","service":"s","inputs":{"a":4}}  a request, which gets the client's next ticket
  {"take":"ann","ticket":0}                        a worker takes the request
  {"answer":"ann","ticket":0}                      the request is run, and its outcome kept
  {"release":"ann"}                                the client's next result is handed out
  {"resize":"ann","capacity":3}                    the client has room for three requests
  {"close":"ann"}                                  the client makes no more requests

An answer with "service" and "inputs", as in a submit, runs that request instead.

Example:
  desk replay < examples/first.jsonl

The status is 0 at the end of the input, and 1 if a fault ended the run. Standard error then has one
word: read, write, long (more than 2^40 bytes came) or memory.

docs/LINES.md in the repository has every line and its answers, docs/MODEL.md what M is."#;

/// The lines of `serve`.
pub const SERVE: &str = r#"Each line is one JSON object:
  {"model":M}                                      a model, in force from the next line on
  {"client":"ann","service":"s","inputs":{"a":4}}  a request, which is answered by its result
  {"client":"ann","close":true}                    the client makes no more requests
  {"resize":"ann","capacity":3}                    the client has room for three requests

A client's answers come in the order of its lines, and are written while the program waits for input.
A slow request keeps one worker. Lines of its client that have to wait for it, as a refusal, a close, a
resize, or a request past the capacity, delay no other client until 64 lines or 1048576 bytes of them
wait. So a slow request delays others if all workers are kept, or that many wait.

Example:
  desk serve --workers 4 < examples/clients.jsonl

The status is 0 at the end of the input, and 1 if a fault ended the run. Standard error then has one
word: read, write, long (more than 2^40 bytes came) or memory.

docs/LINES.md in the repository has every line and its answers, docs/MODEL.md what M is."#;

/// What `check` reads and says.
pub const CHECK: &str =
    r#"Reads one model in JSON of any layout: the model itself, or {"model":M} as in a line of serve. With
--requests it is the first line, and lines of requests follow as in serve. Domains beside the model say
what may come to an input or a path of an input, as {"model":M,"domains":{"age":"[0..120]"}}: unary
tests of constants.

Writes lines of JSON. The first is {"lawful":true,..} with the inputs, the decisions with their kinds and
the services with their parameters, or {"fault":F}. After a fault come its places and those of later
faults, at most 100 of each (of table 100 tables and 100 rules), and how many more there are. The fault
domain means that a domain can't be read. With --gives or --strict-null the lines of a valid model go on
with what its services and decisions can give within the domains. With --strict-null the status is 4 if
a service can give null or break a limit. With --tables each decision table follows with its findings,
and with --requests the first 1,000 lines that serve refuses. With --strict as well as --tables the
status is 4 if a table has a gap and no default, rules that overlap where that makes the result null,
or rules that never apply or never decide, or if one of these isn't known. A gap counts among values of
the kinds that the column's tests ask for.

The program with all commands says this in words, with hints and warnings.

Examples:
  desk check < examples/loan.json
  desk check --tables < examples/loan.json

The status is 0 if the model is valid, 3 if it has a fault, 4 if --strict or --strict-null refuses it,
and 1 if a fault ended the run. Standard error then has one word: read, write, long (more than 64 MiB
came) or memory.

docs/MODEL.md in the repository says what a model is and what each fault means."#;

/// The lines of `explain`.
pub const EXPLAIN: &str =
    r#"Each line is one JSON object, as those of serve, and is answered as serve with these options answers it:
  {"model":M}                                      a model, in force from the next line on
  {"client":"ann","service":"s","inputs":{"a":4}}  a request
  {"client":"ann","close":true}                    no more requests of ann
  {"resize":"ann","capacity":9}                    a capacity for ann

A model is answered with its text and the SHA-256 of that. Before its result, a reply has the model by that
sum, the inputs as they were read, and the value of each decision on the way. A table adds the values of
its inputs, the rules that hit and those that decided; a list its members; a context its entries.

  {"client":"ann","line":2,"model":"5f..","service":"s","inputs":{"a":4},"decisions":[{"name":"d","value":5}],"result":5,"ticket":0}

One thread answers, so --workers and --capacity change nothing here.

Example:
  desk explain < examples/clients.jsonl

The status is 0 at the end of the input, and 1 if a fault ended the run. Standard error then has one
word: read, write, long (more than 2^40 bytes came) or memory.

docs/LINES.md in the repository has every line and its answers, docs/MODEL.md what M is."#;
