// The logs of programs with names, without a header: each line is one event.

/// The log of `hi`: one task from its spawn until its object has gone home.
pub const HI_LOG: &str =
    "main\nmain\ntake\ndecode 1.0\nack 1.0\nopen 1.0\nready 1.0\nstart 0\nexec 0\nfinish 0\n\
     release 1.0\nbye 1.0\nidle 1.0\nretire 1.0\ngone 1.0\nmain\nmain\nmain\nmain\nmain\nmain\n";

/// A log of `renamed_output` in which the third task starts and finishes before the first one finishes.
pub const RENAMED_OUTPUT_LOG: &str =
    "main\nmain\ntake\ndecode 1.0\nack 1.0\nopen 1.0\nready 1.0\nstart 0\n\
     main\nmain\ntake\ndecode 2.0\ndecode 2.1\nack 2.0\nack 2.1\nuse 2.0\nopen 2.1\nready 2.1\n\
     main\nmain\ntake\ndecode 3.0\nack 3.0\nopen 3.0\nready 3.0\nstart 1\n\
     exec 1\nfinish 1\nrelease 3.0\nbye 3.0\n\
     exec 0\nfinish 0\nrelease 1.0\nbye 1.0\nready 2.0\nstart 0\nexec 0\nfinish 0\n\
     release 2.0\nrelease 2.1\nbye 2.0\nbye 2.1\nidle 3.0\ngone 1.0\nidle 2.1\n\
     retire 3.0\ncopy 0\nretire 2.1\ngone 3.0\ngone 2.1\n\
     main\nmain\nmain\nmain\nmain\nmain\nmain\nmain\n";

/// A log of `many_readers` in which the links of the readers come in reverse.
pub const MANY_READERS_LOG: &str =
    "main\nmain\ntake\ndecode 1.0\nack 1.0\nmain\nmain\ntake\ndecode 2.0\nack 2.0\nmain\nmain\n\
     take\ndecode 3.0\nack 3.0\nmain\nmain\ntake\ndecode 4.0\nack 4.0\nmain\nmain\ntake\n\
     decode 5.0\nack 5.0\nmain\nmain\ntake\ndecode 6.0\nack 6.0\nmain\nmain\ntake\ndecode 7.0\n\
     ack 7.0\nmain\nmain\ntake\ndecode 8.0\nack 8.0\nmain\nmain\ntake\ndecode 9.0\nack 9.0\n\
     open 1.0\nready 1.0\nuse 2.0\nuse 3.0\nuse 4.0\nuse 5.0\nuse 6.0\nuse 7.0\nuse 8.0\n\
     open 9.0\n\
     link 7.0\nlink 6.0\nlink 5.0\nlink 4.0\nlink 3.0\nlink 2.0\n\
     start 0\nexec 0\nfinish 0\nrelease 1.0\nbye 1.0\n\
     ready 2.0\nready 3.0\nready 4.0\nready 5.0\nready 6.0\nready 7.0\nready 8.0\n\
     start 0\nexec 0\nfinish 0\nrelease 2.0\nbye 2.0\nstart 0\nexec 0\nfinish 0\nrelease 3.0\n\
     bye 3.0\nstart 0\nexec 0\nfinish 0\nrelease 4.0\nbye 4.0\nstart 0\nexec 0\nfinish 0\n\
     release 5.0\nbye 5.0\nstart 0\nexec 0\nfinish 0\nrelease 6.0\nbye 6.0\nstart 0\nexec 0\n\
     finish 0\nrelease 7.0\nbye 7.0\nstart 0\nexec 0\nfinish 0\nrelease 8.0\nbye 8.0\n\
     gone 1.0\nready 9.0\nstart 0\nexec 0\nfinish 0\nrelease 9.0\nbye 9.0\nidle 9.0\nretire 9.0\n\
     gone 9.0\n\
     main\nmain\nmain\nmain\nmain\nmain\n";

/// A log of `full_tables` up to where all seven entries and places are held and the second task waits.
pub const FULL_TABLES_LOG: &str =
    "main\nmain\ntake\ndecode 1.0\ndecode 1.1\ndecode 1.2\ndecode 1.3\ndecode 1.4\ndecode 1.5\n\
     decode 1.6\nack 1.0\nack 1.1\nack 1.2\nack 1.3\nack 1.4\nack 1.5\nack 1.6\nopen 1.0\n\
     open 1.1\nopen 1.2\nopen 1.3\nopen 1.4\nopen 1.5\nopen 1.6\nready 1.0\nready 1.1\n\
     ready 1.2\nready 1.3\nready 1.4\nready 1.5\nready 1.6\nstart 0\nexec 0\nfinish 0\n\
     release 1.0\nrelease 1.1\nrelease 1.2\nrelease 1.3\nrelease 1.4\nrelease 1.5\nrelease 1.6\n\
     bye 1.0\nbye 1.1\nbye 1.2\nbye 1.3\nbye 1.4\nbye 1.5\nbye 1.6\nmain\nmain\ntake\n";

/// A log of `idle_race` in which a version asks to retire while a use of it is under way, and is refused.
pub const IDLE_RACE_LOG: &str =
    "main\nmain\ntake\ndecode 1.0\nack 1.0\nopen 1.0\nready 1.0\nstart 0\nexec 0\nfinish 0\n\
     release 1.0\nbye 1.0\nmain\nmain\ntake\ndecode 2.0\nack 2.0\nidle 1.0\nnack 1.0\nuse 2.0\n\
     ready 2.0\nstart 0\nexec 0\nfinish 0\nrelease 2.0\nbye 2.0\nidle 1.0\nretire 1.0\ngone 1.0\n\
     main\nmain\nmain\nmain\n";

/// A log of `late_trap` in which the fourth task traps first.
pub const LATE_TRAP_LOG: &str = "main\nmain\ntake\nmain\nmain\n\
     main\nmain\ntake\nmain\nmain\n\
     main\nmain\ntake\nmain\nmain\n\
     main\nmain\ntake\nmain\nmain\n\
     start 0\nexec 0\nfinish 0\nstart 0\nstart 1\nstart 2\n\
     exec 2\nfinish 2\nexec 1\nfinish 1\nexec 0\nfinish 0\n";

/// A log of `await_third` up to where the version of the first object has retired.
pub const AWAIT_THIRD_LOG: &str =
    "main\nmain\ntake\ndecode 1.0\nack 1.0\nopen 1.0\nready 1.0\nstart 0\nexec 0\nfinish 0\n\
     release 1.0\nbye 1.0\nmain\nmain\nidle 1.0\nretire 1.0\n";
