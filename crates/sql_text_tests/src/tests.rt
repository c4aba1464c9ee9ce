use list_types::Bytes;
use sql_text::*;
use std::test::*;

// The calls below are made by functions that promise nothing: else each assertion's proof would look into its literals.

// A statement is 0, a syntax error 1, too deep 2, with the place.
fn outcome(rt: &HostRuntime, text: &[u8]) -> (u8, u64) {
    match parse(rt.alloc(), text) {
        Ok(_) => (0, 0),
        Err(ParseFault::Syntax { place }) => (1, place),
        Err(ParseFault::Deep { place }) => (2, place),
        Err(ParseFault::NoMemory) => (3, 0),
    }
}

fn add_times(out: &mut Vec<u8>, piece: &[u8], times: usize) -> Result<(), Fail> {
    for _ in 0..times {
        out.extend_from_slice(piece)?;
    }
    Ok(())
}

// A text with a piece so many times between two others.
fn repeated(
    rt: &HostRuntime,
    front: &[u8],
    piece: &[u8],
    times: usize,
    rest: &[u8],
) -> Result<(u8, u64), Fail> {
    let mut text = Vec::new(rt.alloc());
    text.extend_from_slice(front)?;
    add_times(&mut text, piece, times)?;
    text.extend_from_slice(rest)?;
    Ok(outcome(rt, text.as_slice()))
}

fn enclosed(rt: &HostRuntime, times: usize, inside: &[u8]) -> Result<(u8, u64), Fail> {
    let mut text = Vec::new(rt.alloc());
    text.extend_from_slice(b"SELECT a FROM t WHERE ")?;
    add_times(&mut text, b"(", times)?;
    text.extend_from_slice(inside)?;
    add_times(&mut text, b")", times)?;
    Ok(outcome(rt, text.as_slice()))
}

#[test]
fn statements_and_faults(rt: HostRuntime) -> Result<(), Fail> {
    let cases: [(&[u8], u8, u64); 24] = [
        (b"SELECT * FROM t", 0, 0),
        (
            b" select `a` as b,t.c from spider.t u where not a=1 or b in ('x',\"y\"\"\\n\") ; ",
            0,
            0,
        ),
        (
            b"insert into t(k,v) values(-1,'a''b'),(+2,NULL)/* end */",
            0,
            0,
        ),
        (
            b"INSERT t VALUES (-170141183460469231731687303715884105728)",
            0,
            0,
        ),
        (b"", 1, 0),
        (b"SELECT", 1, 6),
        (b"SELECT a FROM t WHERE a = 1 AND", 1, 31),
        (b"SELECT select FROM t", 1, 7),
        (b"SELECT a FROM t; ;", 1, 17),
        (b"SELECT a FROM t WHERE a = 'x", 1, 26),
        (b"SELECT a FROM t WHERE a = 'x\\q'", 1, 26),
        (b"SELECT a FROM t WHERE `a = 1", 1, 22),
        (b"SELECT a FROM t /* x", 1, 16),
        (b"SELECT a FROM t /*!1*/", 1, 16),
        (b"SELECT a FROM t WHERE a IN (1 2)", 1, 30),
        (b"SELECT a FROM t WHERE 1 IN (1)", 1, 24),
        (b"INSERT t VALUES (1a)", 1, 18),
        (
            b"INSERT t VALUES (170141183460469231731687303715884105728)",
            1,
            17,
        ),
        (b"INSERT t VALUES ('\xff')", 1, 18),
        (b"INSERT t VALUES ,'\xff'", 1, 16),
        (b"/* \xff */ SELECT a FROM t", 1, 3),
        (b"SELECT a FROM Spider.t", 1, 20),
        (b"SELECT a FROM `spider`.t", 1, 22),
        (b"SELECT a FROM spider", 0, 0),
    ];
    for (text, kind, place) in cases {
        assert_eq!(rt; outcome(&rt, text), (kind, place), "{text:?}");
    }
    Ok(())
}

#[test]
fn words_and_signs(rt: HostRuntime) -> Result<(), Fail> {
    let cases: [(&[u8], u8, u64); 18] = [
        (b"SELECT xa, commit start FROM recover AS replace", 0, 0),
        (b"SELECT lock FROM t", 1, 7),
        (b"SELECT a FROM t FOR UPDATE;", 0, 0),
        (b"SELECT a FROM t lock in share mode", 0, 0),
        (b"SELECT a FROM t FOR", 1, 19),
        (b"SELECT a FROM t FOR SHARE", 1, 20),
        (b"SELECT a FROM t FOR UPDATE WHERE a = 1", 1, 27),
        (b"SELECT a FROM t WHERE a -1", 1, 24),
        (b"SELECT a FROM t WHERE a = - 1", 1, 26),
        (b"SELECT a FROM t WHERE a = -1 -1", 1, 29),
        (b"INSERT t VALUES (1 -1)", 1, 19),
        (b"delete from spider.t where not a = -1", 0, 0),
        (b"DELETE t", 1, 7),
        (b"update t set v = v-1, w = - -(a*+2)", 0, 0),
        (b"UPDATE t SET t.v = 1", 1, 14),
        (b"UPDATE t SET v = 1 2", 1, 19),
        (b"UPDATE t SET v = 1 +", 1, 20),
        (b"UPDATE t SET v = a = 1", 1, 19),
    ];
    for (text, kind, place) in cases {
        assert_eq!(rt; outcome(&rt, text), (kind, place), "{text:?}");
    }
    Ok(())
}

#[test]
fn sorts_limits_and_aggregates(rt: HostRuntime) -> Result<(), Fail> {
    let cases: [(&[u8], u8, u64); 18] = [
        (
            b"select a from t order by a desc, t.b asc,c limit 10 offset 5 for update;",
            0,
            0,
        ),
        (b"SELECT * FROM t LIMIT 18446744073709551615", 0, 0),
        (b"SELECT * FROM t LIMIT 18446744073709551616", 1, 22),
        (b"SELECT * FROM t LIMIT 5, 18446744073709551616", 1, 25),
        (b"SELECT * FROM t LIMIT -1", 1, 22),
        (b"SELECT * FROM t LIMIT 1 OFFSET", 1, 30),
        (b"SELECT * FROM t LIMIT 1, 2 OFFSET 3", 1, 27),
        (b"SELECT * FROM t LIMIT 1 ORDER BY a", 1, 24),
        (b"SELECT * FROM t ORDER a", 1, 22),
        (b"SELECT * FROM t ORDER BY 1", 1, 25),
        (b"SELECT * FROM t ORDER BY a,", 1, 27),
        (b"SELECT order FROM t", 1, 7),
        (b"SELECT a max FROM t", 1, 9),
        (
            b"select Count ( * ) as n,sum(t.v) s from t where a = 1",
            0,
            0,
        ),
        (b"SELECT COUNT(*), a FROM t", 1, 17),
        (b"SELECT a, COUNT(*) FROM t", 1, 10),
        (b"SELECT COUNT(a) FROM t", 1, 13),
        (b"SELECT MIN(a) FROM t LIMIT 1", 1, 21),
    ];
    for (text, kind, place) in cases {
        assert_eq!(rt; outcome(&rt, text), (kind, place), "{text:?}");
    }
    Ok(())
}

#[test]
fn questions_about_the_server(rt: HostRuntime) -> Result<(), Fail> {
    let cases: [(&[u8], u8, u64); 18] = [
        (b"SELECT @@version_comment LIMIT 1", 0, 0),
        (b"select/* c */@@VERSION_comment;", 0, 0),
        (b"SELECT @@version_comment LIMIT 2", 1, 31),
        (b"SELECT @@version_comment LIMIT 1, 1", 1, 32),
        (b"SELECT @@version", 1, 7),
        (b"SELECT @@version_commentx", 1, 7),
        (b"SELECT@@version_comment", 1, 6),
        (b"SELECT a@@version_comment", 1, 8),
        (b"SELECT 1@@version_comment", 1, 7),
        (b"show\n/* c */ tables ;", 0, 0),
        (b"SHOW", 1, 4),
        (b"SHOW TABLE", 1, 5),
        (b"SHOW DATABASES FROM t", 1, 15),
        (b"SELECT DATABASE", 1, 15),
        (b"SELECT DATABASE(1)", 1, 16),
        (b"SELECT DATABASE() FROM t", 1, 18),
        (b"SELECT tables FROM t", 1, 7),
        (b"SELECT `inner`, `on` FROM `join`", 0, 0),
    ];
    for (text, kind, place) in cases {
        assert_eq!(rt; outcome(&rt, text), (kind, place), "{text:?}");
    }
    Ok(())
}

#[test]
fn openings_of_expressions(rt: HostRuntime) -> Result<(), Fail> {
    let front = b"UPDATE t SET v = ";
    assert_eq!(rt; repeated(&rt, front, b"- ", 64, b"1")?, (0, 0));
    assert_eq!(rt; repeated(&rt, front, b"- ", 65, b"1")?, (2, 145));
    assert_eq!(rt; repeated(&rt, front, b"(", 64, b"")?, (1, 81));
    assert_eq!(rt; repeated(&rt, front, b"(", 65, b"")?, (2, 81));
    assert_eq!(rt; repeated(&rt, front, b"1 - ", 100, b"1")?, (0, 0));
    Ok(())
}

#[test]
fn openings(rt: HostRuntime) -> Result<(), Fail> {
    assert_eq!(rt; enclosed(&rt, 64, b"a = 1")?, (0, 0));
    assert_eq!(rt; enclosed(&rt, 65, b"a = 1")?, (2, 86));
    assert_eq!(rt; enclosed(&rt, 63, b"a IN (1)")?, (0, 0));
    assert_eq!(rt; enclosed(&rt, 64, b"a IN (1)")?, (2, 91));
    let front = b"SELECT a FROM t WHERE ";
    assert_eq!(rt; repeated(&rt, front, b"NOT ", 64, b"a = 1")?, (0, 0));
    assert_eq!(rt; repeated(&rt, front, b"NOT ", 65, b"a = 1")?, (2, 278));
    assert_eq!(rt; repeated(&rt, front, b"(", 1_048_576, b"")?, (2, 86));
    Ok(())
}

#[test]
fn long_texts(rt: HostRuntime) -> Result<(), Fail> {
    assert_eq!(rt;
        repeated(&rt, b"INSERT t VALUES (", b"9", 1_000_000, b")")?,
        (1, 17)
    );
    assert_eq!(rt; repeated(&rt, b"SELECT a", b",a", 899, b" FROM t")?, (0, 0));
    assert_eq!(rt;
        repeated(&rt, b"SELECT a", b",a", 900, b" FROM t")?,
        (1, 1806)
    );
    assert_eq!(rt;
        repeated(&rt, b"SELECT COUNT(*)", b",COUNT(*)", 899, b" FROM t")?,
        (0, 0)
    );
    assert_eq!(rt;
        repeated(&rt, b"SELECT COUNT(*)", b",COUNT(*)", 900, b" FROM t")?,
        (1, 8106)
    );
    assert_eq!(rt;
        repeated(&rt, b"INSERT t VALUES (1)", b",(1)", 100_000, b"")?,
        (0, 0)
    );
    Ok(())
}

fn printed(rt: &HostRuntime, statement: &Statement) -> Result<Bytes, Fail> {
    Ok(print(rt.alloc(), statement)?)
}

// The canonical text of a statement, or nothing where it is refused.
fn canonical(rt: &HostRuntime, text: &[u8]) -> Result<Bytes, Fail> {
    match parse(rt.alloc(), text) {
        Ok(statement) => printed(rt, &statement),
        Err(_) => Ok(Bytes::new(rt.alloc())),
    }
}

fn prints_as(rt: &HostRuntime, text: &[u8], expected: &[u8]) -> Result<bool, Fail> {
    Ok(canonical(rt, text)?.as_slice() == expected)
}

#[test]
fn canonical_texts(rt: HostRuntime) -> Result<(), Fail> {
    let cases: [(&[u8], &[u8]); 6] = [
        (b"select * from spider.t;", b"SELECT * FROM `t`"),
        (
            b"SELECT a b,t.c FROM t AS u",
            b"SELECT `a` AS `b`, `t`.`c` FROM `t` AS `u`",
        ),
        (
            b"insert t(k,v) values(+1,\"a'\\\\\\n\"),(-2,null)",
            b"INSERT INTO `t` (`k`, `v`) VALUES (1,'a''\\\\\\n'),(-2,NULL)",
        ),
        (
            b"SELECT a FROM t WHERE ((a=1)) AND (a!=2 AND b<3) OR NOT (a<=2 OR b>=3)",
            b"SELECT `a` FROM `t` WHERE `a` = 1 AND (`a` <> 2 AND `b` < 3) OR NOT (`a` <= 2 OR `b` >= 3)",
        ),
        (
            b"SELECT a FROM t WHERE (a > 1 OR 'x' = b) AND NOT (a NOT IN (1, 2)) AND NOT NOT t.b NOT BETWEEN 1 AND 'y'",
            b"SELECT `a` FROM `t` WHERE (`a` > 1 OR 'x' = `b`) AND NOT `a` NOT IN (1,2) AND NOT NOT `t`.`b` NOT BETWEEN 1 AND 'y'",
        ),
        (b"SELECT a", b""),
    ];
    for (text, expected) in cases {
        assert!(rt; prints_as(&rt, text, expected)?, "{text:?}");
    }
    Ok(())
}

#[test]
fn canonical_orders(rt: HostRuntime) -> Result<(), Fail> {
    let cases: [(&[u8], &[u8]); 6] = [
        (
            b"select a from t order by a,t.b desc , c ASC",
            b"SELECT `a` FROM `t` ORDER BY `a`, `t`.`b` DESC, `c`",
        ),
        (
            b"select * from t where a=1 limit 07 offset 0 for update",
            b"SELECT * FROM `t` WHERE `a` = 1 LIMIT 7 FOR UPDATE",
        ),
        (
            b"select * from t order by a limit 5,0",
            b"SELECT * FROM `t` ORDER BY `a` LIMIT 0 OFFSET 5",
        ),
        (
            b"select * from t limit 3 offset 4",
            b"SELECT * FROM `t` LIMIT 3 OFFSET 4",
        ),
        (
            b"select count(*) n,sum(v), Min( t.v ) as m,max(w) from spider.t t where a=1 for update",
            b"SELECT COUNT(*) AS `n`, SUM(`v`), MIN(`t`.`v`) AS `m`, MAX(`w`) FROM `t` AS `t` WHERE `a` = 1 FOR UPDATE",
        ),
        (b"select count(*) from t order by a", b""),
    ];
    for (text, expected) in cases {
        assert!(rt; prints_as(&rt, text, expected)?, "{text:?}");
    }
    Ok(())
}

#[test]
fn canonical_questions(rt: HostRuntime) -> Result<(), Fail> {
    let cases: [(&[u8], &[u8]); 4] = [
        (
            b"Select  @@Version_Comment limit 01;",
            b"SELECT @@version_comment",
        ),
        (b"select database ( )", b"SELECT DATABASE()"),
        (b"show/* c */tables", b"SHOW TABLES"),
        (b"Show Databases ;", b"SHOW DATABASES"),
    ];
    for (text, expected) in cases {
        assert!(rt; prints_as(&rt, text, expected)?, "{text:?}");
    }
    Ok(())
}

#[test]
fn canonical_changes(rt: HostRuntime) -> Result<(), Fail> {
    let cases: [(&[u8], &[u8]); 9] = [
        (
            b"select a from t for update",
            b"SELECT `a` FROM `t` FOR UPDATE",
        ),
        (
            b"select a from t where a=1 lock in share mode;",
            b"SELECT `a` FROM `t` WHERE `a` = 1 LOCK IN SHARE MODE",
        ),
        (b"delete from spider.t", b"DELETE FROM `t`"),
        (b"delete from t where a+b", b""),
        (
            b"update t set v=(v)+1,w='x' where v in (1)",
            b"UPDATE `t` SET `v` = `v` + 1, `w` = 'x' WHERE `v` IN (1)",
        ),
        (
            b"update t set v=v -1- -1+(+2*a.b)",
            b"UPDATE `t` SET `v` = `v` - 1 - -1 + 2 * `a`.`b`",
        ),
        (
            b"update t set v=1-(2-3)-(4)*(5*6)*(7+8)",
            b"UPDATE `t` SET `v` = 1 - (2 - 3) - 4 * (5 * 6) * (7 + 8)",
        ),
        (
            b"update t set v=-a*-(-1)*- -1*-(a*b)",
            b"UPDATE `t` SET `v` = - `a` * - -1 * - -1 * - (`a` * `b`)",
        ),
        (
            b"update t set v=-(-(a+null))",
            b"UPDATE `t` SET `v` = - - (`a` + NULL)",
        ),
    ];
    for (text, expected) in cases {
        assert!(rt; prints_as(&rt, text, expected)?, "{text:?}");
    }
    Ok(())
}

// A request is 0, a syntax error 1, too deep 2, with the place.
fn link_outcome(rt: &HostRuntime, text: &[u8]) -> (u8, u64) {
    match parse_link(rt.alloc(), text) {
        Ok(_) => (0, 0),
        Err(ParseFault::Syntax { place }) => (1, place),
        Err(ParseFault::Deep { place }) => (2, place),
        Err(ParseFault::NoMemory) => (3, 0),
    }
}

fn link_enclosed(rt: &HostRuntime, times: usize) -> Result<(u8, u64), Fail> {
    let mut text = Vec::new(rt.alloc());
    text.extend_from_slice(b"SELECT * FROM t WHERE ")?;
    add_times(&mut text, b"(", times)?;
    text.extend_from_slice(b"a = 1")?;
    add_times(&mut text, b")", times)?;
    text.extend_from_slice(b" ORDER BY a FOR UPDATE")?;
    Ok(link_outcome(rt, text.as_slice()))
}

#[test]
fn link_faults(rt: HostRuntime) -> Result<(), Fail> {
    let cases: [(&[u8], u8, u64); 9] = [
        (b"", 1, 0),
        (b"XA START 'a','b',2", 1, 17),
        (b"XA RECOVER; XA", 1, 12),
        (b"SELECT * FROM t LOCK IN SHARE MODE", 1, 16),
        (b"SELECT COUNT(*) FROM t ORDER BY k FOR UPDATE", 1, 23),
        (
            b"SELECT COUNT(*) FROM t LIMIT 18446744073709551616 FOR UPDATE",
            1,
            29,
        ),
        (b"SELECT * FROM order ORDER BY k FOR UPDATE", 1, 14),
        (b"REPLACE INTO t VALUES (NULL)", 1, 23),
        (b"DELETE FROM t WHERE k IN (9223372036854775808)", 1, 26),
    ];
    for (text, kind, place) in cases {
        assert_eq!(rt; link_outcome(&rt, text), (kind, place), "{text:?}");
    }
    assert_eq!(rt; link_enclosed(&rt, 65)?, (0, 0));
    assert_eq!(rt; link_enclosed(&rt, 66)?, (2, 87));
    Ok(())
}

// The canonical text of a request, or nothing where it is refused.
fn link_canonical(rt: &HostRuntime, text: &[u8]) -> Result<Bytes, Fail> {
    match parse_link(rt.alloc(), text) {
        Ok(request) => Ok(print_link(rt.alloc(), &request)?),
        Err(_) => Ok(Bytes::new(rt.alloc())),
    }
}

fn link_prints_as(rt: &HostRuntime, text: &[u8], expected: &[u8]) -> Result<bool, Fail> {
    Ok(link_canonical(rt, text)?.as_slice() == expected)
}

#[test]
fn requests_as_they_are_written(rt: HostRuntime) -> Result<(), Fail> {
    let cases: [&[u8]; 12] = [
        b"XA START '1.2.3','s1',1",
        b"XA END '1.2.3','s1',1",
        b"XA PREPARE '1.2.3','s1',1",
        b"XA COMMIT '1.2.3','s1',1",
        b"XA ROLLBACK '1.2.3','s1',1",
        b"XA RECOVER",
        b"SELECT * FROM `t` WHERE `k` > 5 ORDER BY `k` LIMIT 1000 LOCK IN SHARE MODE",
        b"SELECT * FROM `t` ORDER BY `k` FOR UPDATE",
        b"SELECT COUNT(*), SUM(`v`), MIN(`v`), MAX(`v`) FROM `t` WHERE `v` IN (1,2) FOR UPDATE",
        b"REPLACE INTO `t` VALUES (1,'a'),(-2,'b''c')",
        b"DELETE FROM `t` WHERE `k` IN (3,-4)",
        b"DELETE FROM `t` WHERE `k` BETWEEN -9223372036854775808 AND 9223372036854775807",
    ];
    for text in cases {
        assert!(rt; link_prints_as(&rt, text, text)?, "{text:?}");
    }
    Ok(())
}

#[test]
fn requests_with_blanks(rt: HostRuntime) -> Result<(), Fail> {
    assert!(rt;
        link_prints_as(
            &rt,
            b"xa  commit /* c */'a' ,\"b\" , 1 ;",
            b"XA COMMIT 'a','b',1"
        )?
    );
    assert!(rt;
        link_prints_as(
            &rt,
            b"select count ( * ),sum(t.v) from t lock in share mode",
            b"SELECT COUNT(*), SUM(`t`.`v`) FROM `t` LOCK IN SHARE MODE"
        )?
    );
    Ok(())
}
