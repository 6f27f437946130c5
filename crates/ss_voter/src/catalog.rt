//! The catalogue of the voting show.

ghost use Rattle.std.specs.Prelude.{◌≡◌};
ghost use Rattle.ss_voter.specs.VoterCatalog.{voter_text};

/// The catalogue as compact JSON, on one line.
///
/// `validate` takes a vote: it aborts with 1 where there is no such contestant, and with 2 where the phone has voted.
/// `leaderboard` counts it and makes the boards anew, with a trigger on the window of the last four votes for those who
/// are trending, and `remove` takes out who trails when so many votes have come as `begin_show` says.
const VOTER: &str = "{\"tables\":[\
    {\"name\":\"contestants\",\"columns\":[[\"id\",\"int\"],[\"show\",\"int\"],[\"name\",\"text\"],[\"n\",\"int\"]],\"key\":[\"id\"],\"part\":0},\
    {\"name\":\"votes\",\"columns\":[[\"phone\",\"int\"],[\"contestant\",\"int\"]],\"key\":[\"phone\"],\"part\":0,\
    \"indexes\":[[\"contestant\"]]},\
    {\"name\":\"show\",\"columns\":[[\"id\",\"int\"],[\"every\",\"int\"],[\"n\",\"int\"],[\"live\",\"int\"],[\"due\",\"int\"]],\"key\":[\"id\"],\"part\":0},\
    {\"name\":\"board\",\"columns\":[[\"kind\",\"text\"],[\"id\",\"int\"],[\"n\",\"int\"]],\"key\":[\"kind\",\"id\"],\"part\":0}],\
    \"streams\":[{\"name\":\"votes_in\",\"columns\":[[\"phone\",\"int\"],[\"contestant\",\"int\"]]},\
    {\"name\":\"recorded\",\"columns\":[[\"contestant\",\"int\"]]},\
    {\"name\":\"doomed\",\"columns\":[[\"n\",\"int\"],[\"id\",\"int\"]]}],\
    \"windows\":[{\"name\":\"trend\",\"columns\":[[\"x\",\"int\"]],\"owner\":\"leaderboard\",\"unit\":\"rows\",\"size\":4,\"slide\":1}],\
    \"triggers\":[{\"name\":\"trending\",\"on\":\"trend\",\"sql\":[\"DELETE FROM board WHERE kind = 'trending'\",\
    \"INSERT INTO board SELECT 'trending', x, COUNT(*) FROM trend GROUP BY x ORDER BY 3 DESC, 2 LIMIT 3\"]}],\
    \"procedures\":[\
    {\"name\":\"begin_show\",\"kind\":\"call\",\"args\":[[\"every\",\"int\"]],\"touch\":{\"part\":0},\
    \"body\":[{\"sql\":\"INSERT INTO show VALUES (1, :every, 0, 0, 1)\"}]},\
    {\"name\":\"add\",\"kind\":\"call\",\"args\":[[\"id\",\"int\"],[\"name\",\"text\"]],\"touch\":{\"part\":0},\"body\":[\
    {\"sql\":\"INSERT INTO contestants VALUES (:id, 1, :name, 0)\"},\
    {\"sql\":\"UPDATE show SET live = live + 1 WHERE id = 1\"}]},\
    {\"name\":\"validate\",\"kind\":\"border\",\"inputs\":[\"votes_in\"],\"touch\":{\"part\":0},\"body\":[\
    {\"for_each\":\"votes_in\",\"body\":[\
    {\"abort_if\":\"(SELECT COUNT(*) FROM contestants WHERE id = :contestant) = 0\",\"code\":1},\
    {\"abort_if\":\"(SELECT COUNT(*) FROM votes WHERE phone = :phone) > 0\",\"code\":2},\
    {\"sql\":\"INSERT INTO votes VALUES (:phone, :contestant)\"},\
    {\"sql\":\"UPDATE contestants SET n = n + 1 WHERE id = :contestant\"}]},\
    {\"emit\":\"recorded\",\"sql\":\"SELECT contestant FROM votes_in\"}]},\
    {\"name\":\"leaderboard\",\"kind\":\"interior\",\"inputs\":[\"recorded\"],\"touch\":{\"part\":0},\"body\":[\
    {\"sql\":\"UPDATE show SET due = 1\"},\
    {\"for_each\":\"recorded\",\"body\":[\
    {\"sql\":\"UPDATE show SET n = n + 1, due = (n + 1) % every WHERE id = 1\"}]},\
    {\"sql\":\"INSERT INTO trend SELECT contestant FROM recorded\"},\
    {\"sql\":\"DELETE FROM board WHERE kind <> 'trending'\"},\
    {\"sql\":\"INSERT INTO board SELECT 'top', id, n FROM contestants ORDER BY 3 DESC, 2 LIMIT 3\"},\
    {\"sql\":\"INSERT INTO board SELECT 'bottom', id, n FROM contestants ORDER BY 3, 2 LIMIT 3\"},\
    {\"emit\":\"doomed\",\"sql\":\"SELECT contestants.n, contestants.id FROM contestants JOIN show ON contestants.show = show.id \
    WHERE show.due = 0 AND show.live > 1 ORDER BY 1, 2 LIMIT 1\"}]},\
    {\"name\":\"remove\",\"kind\":\"interior\",\"inputs\":[\"doomed\"],\"touch\":{\"part\":0},\"body\":[\
    {\"for_each\":\"doomed\",\"body\":[\
    {\"sql\":\"DELETE FROM votes WHERE contestant = :id\"},\
    {\"sql\":\"DELETE FROM contestants WHERE id = :id\"},\
    {\"sql\":\"DELETE FROM board WHERE id = :id\"},\
    {\"sql\":\"UPDATE show SET live = live - 1 WHERE id = 1\"}]}]}]}";

/// The catalogue of the voting show: the first line of an input, without its line feed. At no cost.
pub fn voter_catalog() -> &'static str
    ensures { result.now ≡ voter_text }
{
    VOTER
}
